use super::*;
use wc_model::{Edit, End, Entry, Text};

// A plain replay of a history in which `alu` alone is edited: kinds from 8 on depend on it, and no name is of
// more than one letter.

const WORKS: usize = 2;

#[derive(Clone, Copy, PartialEq, Eq)]
struct Key {
    kind: u8,
    name: u8,
    stamp: u64,
}

#[derive(Clone, Copy)]
struct Run {
    session: u32,
    key: Key,
}

#[derive(Drop)]
struct Ask {
    session: u32,
    name: u8,
    at: u64,
    kinds: Vec<u8>,
    memory: bool,
}

// `timings`: the cycles after each edit.
#[derive(Drop)]
struct Replay {
    timings: Vec<u16>,
    stored: Vec<Key>,
    out: Vec<Run>,
    asks: Vec<Ask>,
}

fn letter(name: &Text) -> u8 {
    match name.items().first() {
        Some(byte) => *byte,
        None => 0,
    }
}

impl Ask {
    fn has(&self, kind: u8) -> bool {
        self.kinds.iter().any(|own| *own == kind)
    }
}

impl Replay {
    fn new(alloc: Global) -> Replay {
        Replay {
            timings: Vec::new(alloc),
            stored: Vec::new(alloc),
            out: Vec::new(alloc),
            asks: Vec::new(alloc),
        }
    }

    fn count(&self) -> u64 {
        self.timings.len() as u64
    }

    // The cycles after the first edits.
    fn timing(&self, at: u64) -> u16 {
        let mut last = 1;
        for (place, alu) in self.timings.iter().enumerate() {
            if (place as u64) < at {
                last = *alu;
            }
        }
        last
    }

    // The last of the first edits that touched what a kind depends on.
    fn stamp(&self, kind: u8, at: u64) -> u64 {
        let mut last = 0;
        let mut before = 1;
        for (place, alu) in self.timings.iter().enumerate() {
            if (place as u64) < at && *alu != before && kind >= 8 {
                last = place as u64 + 1;
            }
            before = *alu;
        }
        last
    }

    fn key(&self, ask: &Ask, kind: u8) -> Key {
        Key {
            kind,
            name: ask.name,
            stamp: self.stamp(kind, ask.at),
        }
    }

    fn has(&self, key: Key) -> bool {
        self.stored.iter().any(|own| *own == key)
    }

    fn reaches(&self, ask: &Ask, kind: u8) -> bool {
        ask.has(kind) || self.has(self.key(ask, kind))
    }

    fn is_free(&self, session: u32) -> bool {
        self.asks.iter().all(|ask| ask.session != session)
    }

    fn rests(&self, session: u32) -> bool {
        self.out.iter().all(|run| run.session != session)
    }

    fn take_ask(&mut self, session: u32) -> Option<Ask> {
        let place = self.asks.iter().position(|ask| ask.session == session)?;
        Some(self.asks.remove(place))
    }

    fn take_run(&mut self, session: u32) -> Option<Run> {
        let place = self.out.iter().position(|run| run.session == session)?;
        Some(self.out.remove(place))
    }

    fn may_start(&self, ask: &Ask, key: Key) -> bool {
        let busy = self
            .out
            .iter()
            .filter(|run| run.key.kind == key.kind)
            .count();
        ask.name == key.name
            && !ask.memory
            && self.rests(ask.session)
            && key == self.key(ask, key.kind)
            && self.out.iter().all(|run| run.key != key)
            && busy < WORKS
            && !self.reaches(ask, 11)
            && !self.reaches(ask, key.kind)
            && (1..key.kind).all(|kind| self.reaches(ask, kind))
    }

    fn edit(&mut self, session: u32, count: u64, edit: &Edit) -> Result<bool, AllocError> {
        let Edit::Hardware(hardware) = edit else {
            return Ok(false);
        };
        let legal = self.is_free(session) && count == self.count().wrapping_add(1);
        let alu = hardware.cycles.alu;
        if alu != self.timing(self.count()) {
            self.stored.retain(|key| key.kind < 8);
        }
        self.timings.push(alu)?;
        Ok(legal)
    }

    fn pin(&mut self, alloc: Global, session: u32, name: u8, at: u64) -> Result<bool, AllocError> {
        let legal = self.is_free(session) && at == self.count();
        self.asks.push(Ask {
            session,
            name,
            at,
            kinds: Vec::new(alloc),
            memory: false,
        })?;
        Ok(legal)
    }

    fn start(&mut self, session: u32, key: Key) -> Result<bool, AllocError> {
        let Some(mut ask) = self.take_ask(session) else {
            return Ok(false);
        };
        let legal = self.may_start(&ask, key);
        for kind in 1..12 {
            if self.has(self.key(&ask, kind)) {
                ask.kinds.push(kind)?;
            }
        }
        self.asks.push(ask)?;
        self.out.push(Run { session, key })?;
        Ok(legal)
    }

    fn finish(&mut self, session: u32, key: Key, end: End) -> Result<bool, AllocError> {
        let (Some(run), Some(mut ask)) = (self.take_run(session), self.take_ask(session)) else {
            return Ok(false);
        };
        let current = self.stamp(key.kind, self.count()) == key.stamp;
        let legal = match end {
            End::Kept => current,
            End::Dropped => !current,
            End::Memory => true,
        };
        if end == End::Memory {
            ask.memory = true;
        } else {
            ask.kinds.push(key.kind)?;
        }
        if end == End::Kept {
            self.stored.push(key)?;
        }
        self.asks.push(ask)?;
        Ok(legal && run.key == key)
    }

    fn answer(&mut self, session: u32, name: u8, at: u64, outcome: Outcome) -> bool {
        let Some(ask) = self.take_ask(session) else {
            return false;
        };
        let right = if ask.memory {
            outcome == Outcome::Memory
        } else {
            self.reaches(&ask, 11) && outcome == Outcome::Bound(self.timing(at) as u128)
        };
        right && ask.name == name && ask.at == at && self.rests(session)
    }

    fn step(&mut self, alloc: Global, entry: &Entry) -> Result<bool, AllocError> {
        match entry {
            Entry::Edit {
                session,
                count,
                edit,
            } => self.edit(*session, *count, edit),
            Entry::NoFact { session, at, .. } | Entry::List { session, at } => {
                Ok(self.is_free(*session) && *at == self.count())
            }
            Entry::Pin { session, name, at } => self.pin(alloc, *session, letter(name), *at),
            Entry::Start {
                session,
                kind,
                name,
                stamp,
            } => self.start(*session, key_of(*kind, name, *stamp)),
            Entry::Finish {
                session,
                kind,
                name,
                stamp,
                end,
            } => self.finish(*session, key_of(*kind, name, *stamp), *end),
            Entry::Answer {
                session,
                name,
                at,
                outcome,
            } => Ok(self.answer(*session, letter(name), *at, *outcome)),
        }
    }
}

fn key_of(kind: Kind, name: &Text, stamp: u64) -> Key {
    Key {
        kind: kind.number(),
        name: letter(name),
        stamp,
    }
}

pub(crate) fn is_legal(alloc: Global, history: &[Entry]) -> Result<bool, AllocError> {
    let mut replay = Replay::new(alloc);
    for entry in history {
        if !replay.step(alloc, entry)? {
            return Ok(false);
        }
    }
    Ok(true)
}
