//! How deep a text is, which is looked at before it is read: its open brackets, and the weight of its tokens.
ghost use Rattle.std.specs.Prelude.{◌≡◌, false};
ghost use Rattle.lq_grammar.specs.Depth as depth;
ghost use Rattle.lq_syntax.specs.Levels.{effect_shown};

use lq_grammar::{Kind, Token};

/// The most brackets that may be open at a place.
const BRACKET_LIMIT: usize = 64;

/// The most weight that a place may have.
const WEIGHT_LIMIT: u32 = 256;

/// What a token does to the depth of the text.
#[derive(Clone, Copy)]
enum Effect {
    Opens,
    Closes,
    WeighsNothing,
    Weighs,
}

/// What a token of this kind does to the depth.
fn effect_of(kind: Kind) -> Effect
    ensures { effect_shown result ≡ depth.effect_of kind }
{
    match kind {
        Kind::LeftParenthesis | Kind::LeftBrace => Effect::Opens,
        Kind::RightParenthesis | Kind::RightBrace => Effect::Closes,
        Kind::Name
        | Kind::Integer
        | Kind::Text
        | Kind::True
        | Kind::False
        | Kind::Null
        | Kind::Semicolon => Effect::WeighsNothing,
        _ => Effect::Weighs,
    }
}

/// The levels at a place, each with one more than the number of its tokens that weigh.
#[derive(Drop)]
struct Levels {
    /// From the outermost to the innermost; what comes after that is of levels that were closed.
    weights: [u32; 65],
    /// The place of the innermost, which is the number of open brackets.
    innermost: usize,
    /// The weights of all open levels together.
    weight: u32,
}

impl Levels {
    ghost use Rattle.std.specs.Prelude.{◌≡◌, false};
    ghost use Rattle.lq_grammar.specs.Depth as depth;
    ghost use Rattle.lq_syntax.specs.Levels.{IsWithin, effect_shown, levels_of};

    /// The levels before the first token.
    fn outermost() -> Levels
        ensures levels { levels_of result ≡ depth.outermost }
        ensures within { IsWithin result }
    {
        Levels {
            weights: [1; 65],
            innermost: 0,
            weight: 1,
        }
    }

    /// A bracket opens. Whether too many are then open, or the place weighs too much; then the levels
    /// are no longer known.
    #[tactic(auto, using(crate::proofs::LevelLemmas::opens_past, crate::proofs::LevelLemmas::opens_heavy))]
    fn open_level(&mut self) -> bool
        requires { IsWithin self.old }
        ensures past { result ≡ depth.is_past
            (depth.behind_token (levels_of self.old) depth.Opens) }
        ensures levels { result ≡ false → levels_of self.new
            ≡ depth.behind_token (levels_of self.old) depth.Opens }
        ensures within { result ≡ false → IsWithin self.new }
    {
        if self.innermost >= BRACKET_LIMIT || self.weight >= WEIGHT_LIMIT {
            return true;
        }
        self.innermost += 1;
        self.weights[self.innermost] = 1;
        self.weight += 1;
        false
    }

    /// A bracket closes, where one is open.
    fn close_level(&mut self)
        requires { IsWithin self.old }
        ensures past { depth.is_past (depth.behind_token (levels_of self.old) depth.Closes)
            ≡ false }
        ensures levels { levels_of self.new ≡ depth.behind_token (levels_of self.old) depth.Closes }
        ensures within { IsWithin self.new }
    {
        if self.innermost > 0 {
            self.weight -= self.weights[self.innermost];
            self.innermost -= 1;
        }
    }

    /// A token weighs. Whether the place then weighs too much; then the levels are no longer known.
    #[tactic(auto, using(crate::proofs::LevelLemmas::weighs_heavy))]
    fn weigh_one(&mut self) -> bool
        requires { IsWithin self.old }
        ensures past { result ≡ depth.is_past
            (depth.behind_token (levels_of self.old) depth.Weighs) }
        ensures levels { result ≡ false → levels_of self.new
            ≡ depth.behind_token (levels_of self.old) depth.Weighs }
        ensures within { result ≡ false → IsWithin self.new }
    {
        if self.weight >= WEIGHT_LIMIT {
            return true;
        }
        self.weights[self.innermost] += 1;
        self.weight += 1;
        false
    }

    /// Goes past a token. Whether the place is past the limits; then the levels are no longer known.
    #[tactic(auto, using(crate::proofs::LevelLemmas::within_limits))]
    fn go_behind(&mut self, effect: Effect) -> bool
        requires { IsWithin self.old }
        ensures past { result ≡ depth.is_past
            (depth.behind_token (levels_of self.old) (effect_shown effect)) }
        ensures levels { result ≡ false → levels_of self.new
            ≡ depth.behind_token (levels_of self.old) (effect_shown effect) }
        ensures within { result ≡ false → IsWithin self.new }
    {
        match effect {
            Effect::Opens => self.open_level(),
            Effect::Closes => {
                self.close_level();
                false
            }
            Effect::Weighs => self.weigh_one(),
            Effect::WeighsNothing => false,
        }
    }
}

/// Whether a place of a text with these tokens is past the limits: more than 64 brackets are open there,
/// or it weighs more than 256.
#[tactic(auto, unfolding(lq_grammar::specs::Depth::is_deep))]
pub fn is_deep(tokens: &[Token]) -> bool
    ensures { result ≡ depth.is_deep tokens.now }
{
    let mut levels = Levels::outermost();
    for token in tokens {
        if levels.go_behind(effect_of(token.kind)) {
            return true;
        }
    }
    false
}
