ghost use Rattle.std.specs.Prelude.{◌≡◌, ◌+◌, ◌-◌, ◌<◌, ◌^◌, length, All};
ghost use Rattle.wc_model.specs.Workspace.Entries.{session_of};

use super::*;
use std::marker::{Brand, PhantomData};
use std::sync::{Mutex, Wait};
use std::test::Fail;
use std::thread;
use std::thread::Threads;
use wc_model::Entry;

fn listed(session: u32) -> Entry
    ensures { session_of result ≡ session }
{
    Entry::List { session, at: 0 }
}

#[test]
fn a_note_hands_on_what_its_maker_has_seen(rt: HostRuntime) -> Result<(), Fail> {
    let (desk, mut pen, mut passes) = Desk::new(rt.alloc(), 2)?;
    pen.publish(&desk, &listed(0));
    pen.publish(&desk, &listed(0));
    pen.publish(&desk, &listed(0));
    let early = pen.note(&desk);
    let (Some(mut second), Some(mut first)) = (passes.pop(), passes.pop()) else {
        panic!(rt; "two passes")
    };
    assert_eq!(rt; (first.session(), second.session()), (1, 2));
    assert_eq!(rt; first.learn(&desk, early), 3);
    let told = first.note(&desk);
    pen.publish(&desk, &listed(0));
    assert_eq!(rt; second.learn(&desk, told), 3);
    let late = pen.note(&desk);
    assert_eq!(rt; second.learn(&desk, late), 4);
    assert_eq!(rt; second.learn(&desk, first.note(&desk)), 4);
    Ok(())
}

fn sends<T: Send>() {}

fn shares<T: Sync>() {}

#[test]
fn pens_passes_and_notes_may_move_and_a_desk_may_be_shared(_rt: HostRuntime) {
    sends::<Pen>();
    sends::<Pass>();
    sends::<Note>();
    shares::<Desk>();
}

// Names the desk of the pen that stands behind a lock.
trait Owner {
    ghost use Rattle.atomic_table.specs.Seated.{TableId};

    ghost desk: { TableId };
}

impl Owner for Brand {
    ghost use Rattle.std.specs.Prelude.{[]};

    ghost desk = { record { words = 0; slots = 0; views_name = 0; atom = 0; block = 0; offset = 0; slot_names = [] } };
}

#[derive(Drop)]
struct Locked<N: Owner> {
    pen: Pen,
    published: u64,
    of: PhantomData<N>,
    ghost own_desk: { pen.desk ≡ N.desk },
    ghost count: { length pen.seen ≡ published },
}

#[derive(Drop)]
struct Room<N: Owner> {
    locked: Mutex<Locked<N>>,
    desk: Desk,
    ghost desk_is: { desk ≡ N.desk },
}

const TURNS: u64 = 1000;

fn take_turns<R: Wait, N: Owner>(rt: &R, room: &Room<N>, pass: &mut Pass)
    requires { pass.old.desk ≡ N.desk }
    ensures { pass.new.desk ≡ N.desk }
{
    for turn in 0..TURNS {
        let mut held = room.locked.lock(rt);
        if turn % 2 == 0 && held.published < u64::MAX {
            publish(&mut held, &room.desk, pass);
        } else {
            held.pen.meet(&room.desk, pass);
        }
    }
}

fn publish<N: Owner>(locked: &mut Locked<N>, desk: &Desk, pass: &mut Pass)
    requires { (desk.now ≡ N.desk) × (pass.old.desk ≡ N.desk) × (locked.old.published < 2 ^ 64 - 1) }
    ensures { pass.new.desk ≡ N.desk }
{
    let entry = listed(pass.session());
    locked.pen.publish_for(desk, pass, &entry);
    locked.published += 1;
}

// The least number of entries that a pass has seen in the end.
fn run<R: Threads + Wait + Sync, N: Owner + Send + Sync>(
    rt: &R,
    desk: Desk,
    pen: Pen,
    passes: &mut Vec<Pass>,
) -> u64
    requires { (desk ≡ N.desk) × (pen.desk ≡ N.desk) × (length pen.seen ≡ 0) × All (λ p. p.desk ≡ N.desk) passes.old.items }
{
    let locked = Mutex::new(Locked {
        pen,
        published: 0,
        of: PhantomData,
    });
    let room: Room<N> = Room { locked, desk };
    thread::for_each_mut(
        rt,
        passes,
        2,
        &|_, pass: &mut Pass|
            requires { pass.now.desk ≡ N.desk }
            ensures { pass.exit.now.desk ≡ N.desk }
        { take_turns(rt, &room, pass) },
    );
    let Room { locked, desk } = room;
    let Locked {
        mut pen,
        published: _,
        of: _,
    } = locked.into_inner();
    let mut least = u64::MAX;
    for pass in passes.iter_mut() {
        pen.meet(&desk, pass);
        least = least.min(pass.learn(&desk, pen.note(&desk)));
    }
    least
}

#[test]
fn two_threads_publish_and_meet_a_thousand_times_each(rt: HostRuntime) -> Result<(), Fail> {
    let (desk, pen, mut passes) = Desk::new(rt.alloc(), 2)?;
    assert_eq!(rt;
        run::<HostRuntime, Brand>(&rt, desk, pen, &mut passes),
        1000
    );
    Ok(())
}
