//! What takes the items of a stream.
use lq_value::Value;

/// Whether what takes items takes more of them.
#[derive(Clone, Copy, Drop)]
pub enum Flow {
    /// It takes the next one.
    Go,
    /// It takes no more.
    Stop,
}

/// What takes the items of a stream, one by one and in order.
pub trait Sink<R> {
    ghost use Rattle.lq_value.specs.declared.value.Value.{Value};
    ghost use Rattle.lq_sink.specs.declared.sinks.Flow.{Flow};

    // What holds of the sink before, an item, whether the sink takes more, and the sink after it.
    ghost takes: { Self → Value R → Flow → Self → Type 0 };

    /// Takes the next item, and says whether it takes more.
    fn take(&mut self, item: Value<R>) -> Flow
        ensures { takes self.old item result self.new };
}
