//! What holds of every event. Each law is a function with nothing to do.

ghost use Rattle.std.specs.Prelude.{◌≡◌, ◌↔◌, ◌<◌, ℕ, [], ◌∷◌};
ghost use Rattle.std.specs.declared.option.Option.TheVariants.{None, Some};
ghost use Rattle.protocol.specs.Setting.{Setting};
ghost use Rattle.protocol.specs.Instance.{InEachRun};
ghost use Rattle.protocol.specs.World.{World, Event as AnyEvent, Allowed};
ghost use Rattle.protocol.specs.Lines.{FitsLine, events, fault};
ghost use Rattle.world_steps.specs.declared.event.Event.{Event};
ghost use Rattle.world_steps.specs.Events.{line_of, event_of};

/// An event is all that takes place at its line, where the message of its number is there. A line without a fault has its
/// event, and in a run it has no fault exactly where the event is allowed.
pub fn an_event_is_its_line()
    ensures alone { (s : Setting) (w : World) (event : Event) (e : AnyEvent)
        → event_of w.pool event ≡ Some e → events s w (line_of event) ≡ e ∷ [] }
    ensures there { (s : Setting) (w : World) (event : Event) → fault s w (line_of event) ≡ None
        → (e : AnyEvent) × (event_of w.pool event ≡ Some e) }
    ensures allowed { InEachRun (λ s w. (place : ℕ) (event : Event) (e : AnyEvent) → w.place < place
        → FitsLine s (line_of event) → event_of w.pool event ≡ Some e
        → (fault s w (line_of event) ≡ None) ↔ Allowed s w place e) }
{}
