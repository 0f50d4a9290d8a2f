//! What dialogues leave to others: the memory of a queue that is empty and that of the invocations of one that is
//! over, where it is small.

use super::subject::Heap;
use refusing::Refusing;
use std::test::Fail;
use tcap_component::Code;
use tcap_engine::{Address, Ending, Engine, Limits};
use tcap_invocation::Class;

/// So many Invokes, and how many octets the parameter of each has behind its head of three octets: an Invoke has 8
/// more, and one of 128 or more 9.
#[derive(Clone, Copy)]
pub(super) struct Load(i8, u8);

/// Queues this load in a dialogue, with identifiers from this one on.
fn queue_from(engine: &mut Engine<Heap<'_>>, dialogue: u32, first: i8, load: Load) -> Option<()> {
    let Load(invokes, octets) = load;
    let mut parameter = [0; 258];
    parameter[0] = 0x04;
    parameter[1] = 0x81;
    parameter[2] = octets;
    let parameter = &parameter[..3 + octets as usize];
    let code = Code::Local(1);
    for place in 0..invokes {
        let id = first.saturating_add(place);
        engine
            .invoke(dialogue, id, Class::One, code, Some(parameter), None, 1000)
            .ok()?;
    }
    Some(())
}

/// Creates a dialogue and queues this load in it: its identifier, nothing where a request is refused.
pub(super) fn queued(engine: &mut Engine<Heap<'_>>, load: Load) -> Option<u32> {
    let dialogue = engine.new_dialogue().ok()?;
    queue_from(engine, dialogue, 0, load)?;
    Some(dialogue)
}

/// Ends a dialogue as both sides arranged before.
fn end(engine: &mut Engine<Heap<'_>>, dialogue: u32) -> Option<()> {
    engine
        .finish(dialogue, Ending::Prearranged, None, &[])
        .ok()?;
    Some(())
}

/// What was before the growths that are counted, and what they are counted in.
#[derive(Clone, Copy)]
enum Scene {
    /// A dialogue of this load was over; one of that load comes.
    After(Load, Load),
    /// One sent four Invokes five times, and was over; one of this load comes.
    AfterMany(Load),
    /// One of this load sent it, and stands; another comes.
    AfterSent(Load),
    /// As `After`, and a dialogue stands in which nothing was asked.
    BesideOne(Load, Load),
    /// As `After`, and an Invoke was refused.
    AfterRefusal(Load, Load),
    /// As `After`, and a Begin came whose component is rejected.
    AfterReject(Load, Load),
    /// Twenty of this load were over; twenty more come.
    Twenty(Load),
    /// One of this load was over, and a Begin of one Invoke came; another comes.
    Begin(Load),
    /// A dialogue sent the first load and queued the second; a Continue comes with eight components, the first
    /// faulty.
    Faulty(Load, Load),
}

/// A Begin without components.
const BEGIN: [u8; 8] = [0x62, 0x06, 0x48, 0x04, 0, 0, 0, 1];

/// A Begin with an Invoke of the operation 2.
const INVOKING: [u8; 18] = [
    0x62, 0x10, 0x48, 0x04, 0, 0, 0, 1, 0x6c, 0x08, 0xa1, 0x06, 0x02, 0x01, 1, 0x02, 0x01, 2,
];

/// A Begin with an Invoke that has no code.
const FAULTY: [u8; 15] = [
    0x62, 0x0d, 0x48, 0x04, 0, 0, 0, 1, 0x6c, 0x05, 0xa1, 0x03, 0x02, 0x01, 1,
];

/// A Continue with eight components, of which none has an identifier.
const FAULTY_FIRST: [u8; 32] = [
    0x65, 0x1e, 0x48, 0x04, 0, 0, 0, 1, 0x49, 0x04, 0, 0, 0, 1, 0x6c, 0x10, 0xa1, 0, 0xa1, 0, 0xa1,
    0, 0xa1, 0, 0xa1, 0, 0xa1, 0, 0xa1, 0, 0xa1, 0,
];

/// Receives a message.
pub(super) fn hear(engine: &mut Engine<Heap<'_>>, message: &[u8]) -> Option<()> {
    let from = Address::empty();
    engine.receive(&from, message).ok()?;
    Some(())
}

/// A dialogue sends four Invokes five times, and is over.
fn send_many(engine: &mut Engine<Heap<'_>>) -> Option<()> {
    hear(engine, &BEGIN)?;
    for round in 0..5i8 {
        for place in 0..4i8 {
            let id = round.saturating_mul(4).saturating_add(place);
            engine
                .invoke(1, id, Class::One, Code::Local(1), None, None, 1000)
                .ok()?;
        }
        engine.go_on(1, None, &[]).ok()?;
    }
    end(engine, 1)
}

/// So many dialogues of a load stand, one beside the other, and are over.
fn many_over(engine: &mut Engine<Heap<'_>>, count: u32, load: Load) -> Option<()> {
    for _ in 0..count {
        queued(engine, load)?;
    }
    for dialogue in 1..count.saturating_add(1) {
        end(engine, dialogue)?;
    }
    Some(())
}

/// Two dialogues stand, the first of them with a load, and are over.
pub(super) fn two_over(engine: &mut Engine<Heap<'_>>, load: Load) -> Option<()> {
    queued(engine, load)?;
    queued(engine, Load(0, 0))?;
    end(engine, 1)?;
    end(engine, 2)
}

/// What was before.
fn prepare(engine: &mut Engine<Heap<'_>>, scene: Scene) -> Option<()> {
    match scene {
        Scene::After(load, _) => two_over(engine, load),
        Scene::AfterMany(_) => send_many(engine),
        Scene::AfterSent(load) => {
            let dialogue = queued(engine, load)?;
            engine.begin(dialogue, &Address::empty(), None, &[]).ok()?;
            Some(())
        }
        Scene::BesideOne(load, _) => {
            two_over(engine, load)?;
            queued(engine, Load(0, 0))?;
            Some(())
        }
        Scene::AfterRefusal(load, _) => {
            two_over(engine, load)?;
            let dialogue = engine.new_dialogue().ok()?;
            let code = Code::Local(1);
            let refused = engine.invoke(dialogue, 1, Class::One, code, None, None, 0);
            refused.is_err().then_some(())
        }
        Scene::AfterReject(load, _) => {
            two_over(engine, load)?;
            hear(engine, &FAULTY)
        }
        Scene::Twenty(load) => many_over(engine, 20, load),
        Scene::Begin(load) => {
            two_over(engine, load)?;
            hear(engine, &INVOKING)
        }
        Scene::Faulty(sent, queued) => {
            hear(engine, &BEGIN)?;
            queue_from(engine, 1, 0, sent)?;
            engine.go_on(1, None, &[]).ok()?;
            queue_from(engine, 1, 100, queued)
        }
    }
}

/// What comes.
fn come(engine: &mut Engine<Heap<'_>>, scene: Scene) -> Option<()> {
    match scene {
        Scene::After(_, load)
        | Scene::AfterMany(load)
        | Scene::AfterSent(load)
        | Scene::BesideOne(_, load)
        | Scene::AfterRefusal(_, load)
        | Scene::AfterReject(_, load) => {
            queued(engine, load)?;
            Some(())
        }
        Scene::Twenty(load) => {
            for _ in 0..20 {
                queued(engine, load)?;
            }
            Some(())
        }
        Scene::Begin(_) => hear(engine, &INVOKING),
        Scene::Faulty(..) => hear(engine, &FAULTY_FIRST),
    }
}

/// How many growths there are in what comes.
fn growths_in(heap: Heap<'_>, scene: Scene) -> Option<u64> {
    let limits = Limits {
        max_dialogues: 32,
        reject_ms: 1000,
        idle_ms: 0,
    };
    for number in 1..200u64 {
        heap.refuse(0);
        let mut engine = Engine::new(heap, limits);
        prepare(&mut engine, scene)?;
        heap.refuse(number);
        let done = come(&mut engine, scene);
        if heap.is_armed() {
            heap.refuse(0);
            return done.map(|_| number - 1);
        }
    }
    None
}

/// How many growths a dialogue has with one Invoke, by what of that is taken which was left.
#[derive(Clone, Copy)]
enum Taken {
    /// A queue that has room for it, and a list of invocations.
    Both,
    /// A list, and a queue whose octets grow.
    SmallerQueue,
    /// A queue that has room for it: a list takes one block.
    Queue,
    /// A list: a queue takes two blocks.
    List,
    Nothing,
}

/// So many.
fn growths_left(taken: Taken) -> u64 {
    match taken {
        Taken::Both => 0,
        Taken::SmallerQueue | Taken::Queue => 1,
        Taken::List => 2,
        Taken::Nothing => 3,
    }
}

/// A small Invoke, of 13 octets.
pub(super) const SMALL: Load = Load(1, 2);

const SCENES: [(Scene, Taken); 15] = [
    (Scene::After(SMALL, SMALL), Taken::Both),
    (Scene::After(Load(1, 240), Load(1, 240)), Taken::Both),
    (Scene::After(Load(1, 240), SMALL), Taken::Both),
    (Scene::After(SMALL, Load(1, 240)), Taken::SmallerQueue),
    // Four of 248 octets take 1,024, four of 263 more.
    (Scene::After(Load(4, 240), SMALL), Taken::Both),
    (Scene::After(Load(4, 255), SMALL), Taken::List),
    // The list of a dialogue that had five is too large.
    (Scene::After(Load(5, 2), SMALL), Taken::Queue),
    // So is the queue of one that had seventeen components.
    (Scene::After(Load(16, 2), SMALL), Taken::Queue),
    (Scene::After(Load(17, 2), SMALL), Taken::Nothing),
    (Scene::After(Load(0, 0), SMALL), Taken::Nothing),
    (Scene::AfterMany(SMALL), Taken::Queue),
    (Scene::AfterSent(SMALL), Taken::Queue),
    (Scene::BesideOne(SMALL, SMALL), Taken::Both),
    (Scene::AfterRefusal(SMALL, SMALL), Taken::Both),
    (Scene::AfterReject(Load(1, 240), Load(1, 240)), Taken::List),
];

#[test]
fn memory_is_left_to_a_component(rt: HostRuntime) -> Result<(), Fail> {
    let heap = Refusing::new(rt.alloc());
    for (place, (scene, taken)) in SCENES.iter().enumerate() {
        let found = growths_in(&heap, *scene);
        assert!(rt; found == Some(growths_left(*taken)), "{place}: {found:?}");
    }
    // Of twenty, sixteen leave theirs.
    assert_eq!(rt; growths_in(&heap, Scene::Twenty(SMALL)), Some(4 * 3));
    // The outputs of a Begin take one.
    assert_eq!(rt; growths_in(&heap, Scene::Begin(SMALL)), Some(1));
    // Beside the outputs, room for one Reject: its octets where the queue is full, its place where four stand in it.
    for scene in [
        Scene::Faulty(Load(0, 0), SMALL),
        Scene::Faulty(Load(1, 100), Load(4, 2)),
    ] {
        assert_eq!(rt; growths_in(&heap, scene), Some(2));
    }
    Ok(())
}
