// A tracer and a plugin of the tests' own, and those that do nothing.

ghost use Rattle.std.specs.Prelude.{◌≡◌, true, List, [], ◌∷◌, ◌++◌, if◌then◌else◌};
ghost use Rattle.std.specs.Str.{chars};
ghost use Rattle.cov_event.specs.declared.event.Event.{Event};
ghost use Rattle.cov_event.specs.declared.plugin.Verdict.TheVariants.{Quiet, Label};

use cov_event::{Ask, CodeId, ContextPlugin, Event, Nobody, Silent, Tracer, Verdict};
use py_value::{ExcKind, NoMemory, Text};
use std::alloc::Global;
use std::test::Fail;

/// Keeps the events that it is told.
#[derive(Drop)]
struct Log {
    events: Vec<Event>,
}

impl Tracer for Log {
    ghost moves = { λ old ev new. new.events.items ≡ old.events.items ++ ev ∷ [] };

    ghost refused = { λ old _ new. new.events.items ≡ old.events.items };

    ghost Record = { List Event };

    ghost recorded = { λ log. log.events.items };

    ghost kept = { λ _ _ _ same. same };

    fn event(&mut self, _alloc: Global, ev: &Event) -> Result<(), NoMemory> {
        self.events.push(*ev)?;
        Ok(())
    }
}

/// Labels every function by its name, but for the first that it is asked about.
#[derive(Drop)]
struct AfterFirst {
    has_begun: bool,
}

impl ContextPlugin for AfterFirst {
    ghost moves = { λ old _ function verdict new.
        (verdict ≡ (if old.has_begun then Label (chars function) else Quiet))
        × (new.has_begun ≡ true) };

    fn context(
        &mut self,
        alloc: Global,
        _module: &str,
        function: &str,
    ) -> Result<Verdict, NoMemory> {
        if !self.has_begun {
            self.has_begun = true;
            return Ok(Verdict::Quiet);
        }
        Ok(Verdict::Label(Text::from_str(alloc, function)?))
    }
}

fn tell<T: Tracer>(alloc: Global, tracer: &mut T, events: &[Event]) -> Result<(), NoMemory> {
    for event in events {
        tracer.event(alloc, event)?;
    }
    Ok(())
}

#[test]
fn tracers_take_events(rt: HostRuntime) -> Result<(), Fail> {
    let alloc = rt.alloc();
    let events = [
        Event::Call(CodeId { module: 0, unit: 1 }),
        Event::Line(3),
        Event::Throw(ExcKind::KeyError),
        Event::Return,
    ];
    let mut log = Log {
        events: Vec::new(alloc),
    };
    tell(alloc, &mut log, &events)?;
    assert!(rt; log.events.as_slice() == events.as_slice());
    tell(alloc, &mut Silent, &events)?;
    Ok(())
}

#[test]
fn labels_are_asked_for(rt: HostRuntime) -> Result<(), Fail> {
    let alloc = rt.alloc();
    assert!(rt; Nobody.ask(alloc, "m", "f")?.is_none());
    let mut plugin: Box<dyn ContextPlugin> = Box::new(alloc, AfterFirst { has_begun: false })?;
    assert!(rt; matches!(plugin.context(alloc, "m", "f")?, Verdict::Quiet));
    match plugin.context(alloc, "m", "g")? {
        Verdict::Label(text) => assert_eq!(rt; text.as_str(), "g"),
        Verdict::Quiet | Verdict::Leave => panic!(rt; "no label"),
    }
    Ok(())
}
