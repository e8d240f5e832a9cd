use super::replay::is_legal;
use super::scenes::played;
use super::*;
use std::test::Fail;
use wc_model::Entry;

// What ends a call that isn't an edit's.
#[derive(Clone, Copy, PartialEq, Eq)]
enum Reply {
    Answer,
    List,
    NoFact,
}

fn reply_of(entry: &Entry) -> Option<Reply> {
    match entry {
        Entry::Answer { .. } => Some(Reply::Answer),
        Entry::List { .. } => Some(Reply::List),
        Entry::NoFact { .. } => Some(Reply::NoFact),
        _ => None,
    }
}

fn tally(history: &[Entry], wanted: Reply) -> usize {
    history
        .iter()
        .filter(|entry| reply_of(entry) == Some(wanted))
        .count()
}

#[test]
fn sixty_four_sessions_make_a_hundred_calls_each(rt: HostRuntime) -> Result<(), Fail> {
    let closed = played(&rt, rt.alloc(), Scene::Many, 1, 64)?;
    let history = closed.history.as_slice();
    assert!(rt; is_legal(rt.alloc(), history)?);
    // the replay misses the opening's edit where it is left out
    let Some((_edit, later)) = history.split_first() else {
        panic!(rt; "an opening");
    };
    assert!(rt; !is_legal(rt.alloc(), later)?);
    // of five calls two ask, one lists, and one drops a fact that isn't there
    assert_eq!(rt; tally(history, Reply::Answer), 64 * 40);
    assert_eq!(rt; tally(history, Reply::List), 64 * 20);
    assert_eq!(rt; tally(history, Reply::NoFact), 64 * 20);
    Ok(())
}
