ghost use Rattle.std.specs.Prelude.{◌≡◌, ◌+◌, ◌<◌, ◌≤◌, ◌^◌, IfOk, false, length, map, min, true};
ghost use Rattle.std.specs.List.{sum};
ghost use Rattle.wc_ages.specs.AgeLaws.{grown};
ghost use Rattle.wc_ages.specs.States.{AreAges, IsLoweredAt, IsMayJoin, MayHeld, holds_line, lowered, may_ages};
ghost use Rattle.wc_ages.specs.States.{may_rank};
ghost use Rattle.wc_model.specs.Cache.Ages.{may_accessed, no_lines};

use std::alloc::{AllocError, Global};
use std::marker::Model;

/// The lines that may be in a set, each with an age that it has at least. At most 8 ways; the lines are
/// named from 0.
#[derive(Drop)]
pub struct May {
    ways: u8,
    ages: Vec<u8>,
}

impl Model for May {
    ghost Value = { MayHeld };

    ghost view = { λ m. record { ways = m.ways; ages = m.ages.items } };

    ghost invariant = { λ m. AreAges m.ways m.ages.items };
}

impl May {
    /// Holds no line, and has room for lines below `lines`.
    pub fn new(alloc: Global, ways: u8, lines: u32) -> Result<May, AllocError>
        requires some { 1 ≤ ways }
        requires few { ways ≤ 8 }
        ensures ways { IfOk result (λ m. m.ways ≡ ways) }
        ensures ages { IfOk result (λ m. may_ages m ≡ no_lines ways) }
        ensures room { IfOk result (λ m. length m.ages ≡ lines) }
    {
        Ok(May {
            ways,
            ages: vec![in alloc; ways; lines as usize]?,
        })
    }

    /// A line is fetched.
    pub fn access(&mut self, line: u32)
        requires { line < length self.old.ages }
        ensures ways { self.new.ways ≡ self.old.ways }
        ensures room { length self.new.ages ≡ length self.old.ages }
        ensures ages { may_ages self.new ≡ may_accessed (may_ages self.old) line }
    {
        let limit = limit_of(self.ways, self.ages[line as usize]);
        grow(&mut self.ages, limit);
        self.ages[line as usize] = 0;
    }

    /// Goes to the most precise state that is at most as precise as both.
    pub fn join(&mut self, other: &Self)
        requires ways { other.now.ways ≡ self.old.ways }
        requires room { length other.now.ages ≡ length self.old.ages }
        ensures ways { self.new.ways ≡ self.old.ways }
        ensures room { length self.new.ages ≡ length self.old.ages }
        ensures joined { IsMayJoin self.old other.now self.new }
    {
        self.lower(other);
    }

    /// Whether a line is there.
    pub fn holds(&self, line: u32) -> bool
        requires { line < length self.now.ages }
        ensures { result ≡ holds_line (may_ages self.now) line }
    {
        self.ages[line as usize] < self.ways
    }

    // A join, and whether it changed the state.
    pub(crate) fn lower(&mut self, other: &Self) -> bool
        requires ways { other.now.ways ≡ self.old.ways }
        requires room { length other.now.ages ≡ length self.old.ages }
        ensures ways { self.new.ways ≡ self.old.ways }
        ensures room { length self.new.ages ≡ length self.old.ages }
        ensures joined { IsMayJoin self.old other.now self.new }
        ensures unchanged { result ≡ false → self.new ≡ self.old }
        ensures changed { result ≡ true → may_rank self.new < may_rank self.old }
    {
        lower_ages(&mut self.ages, &other.ages)
    }

    // The same state.
    pub(crate) fn twin(&self) -> Result<May, AllocError>
        ensures same { IfOk result (λ m. m ≡ self.now) }
        ensures small { IfOk result (λ m. may_rank m < 2 ^ 64) }
    {
        Ok(May {
            ways: self.ways,
            ages: self.ages.clone()?,
        })
    }

    // The sum of the ages.
    pub(crate) fn room(&self) -> u64
        ensures { result ≡ may_rank self.now }
    {
        sum_of(&self.ages)
    }
}

// Below which age the others grow.
fn limit_of(ways: u8, age: u8) -> u8
    ensures { result ≡ min (age + 1) ways }
{
    if age < ways { age + 1 } else { ways }
}

// The ages below a limit grow by one.
fn grow(ages: &mut Vec<u8>, limit: u8)
    ensures { ages.new.items ≡ map (grown limit) ages.old.items }
{
    for age in ages.iter_mut() {
        if *age < limit {
            *age += 1;
        }
    }
}

// One age goes down to the other one, and whether that changed it.
fn lower_age(ages: &mut Vec<u8>, place: usize, other: &[u8]) -> bool
    requires inside { place < length ages.old.items }
    requires room { length other.now ≡ length ages.old.items }
    ensures { IsLoweredAt other.now place ages.old.items ages.new.items result }
{
    if other[place] < ages[place] {
        ages[place] = other[place];
        true
    } else {
        false
    }
}

// Each age goes down to the other one, and whether that changed one.
fn lower_ages(ages: &mut Vec<u8>, other: &[u8]) -> bool
    requires { length other.now ≡ length ages.old.items }
    ensures ages { ages.new.items ≡ lowered ages.old.items other.now }
    ensures same { result ≡ false → ages.new.items ≡ ages.old.items }
    ensures falls { result ≡ true → sum ages.new.items < sum ages.old.items }
{
    let mut changed = false;
    for place in 0..other.len() {
        if lower_age(ages, place, other) {
            changed = true;
        }
    }
    changed
}

fn sum_of(ages: &[u8]) -> u64
    requires { length ages.now < 2 ^ 32 }
    ensures { result ≡ sum ages.now }
{
    let mut sum = 0;
    for age in ages {
        sum += *age as u64;
    }
    sum
}
