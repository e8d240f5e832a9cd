ghost use Rattle.std.specs.Prelude.{◌≡◌, ℕ, ◌<◌, ◌≤◌, ◌==◌, false, if◌then◌else◌, length, map, max, min, true};
ghost use Rattle.wc_ages.specs.Slots.{AreSlots, IsFetched, IsPlaceAt, IsRaisedAt, age_in, is_place, older};
ghost use Rattle.wc_ages.specs.Slots.{raised, rank_of};

/// A line and its age.
#[derive(Clone, Copy)]
pub struct Slot {
    pub line: u32,
    pub age: u8,
}

fn age_with(slot: &Slot, line: u32, age: u8) -> u8
    ensures { result ≡ if slot.now.line == line then min slot.now.age age else age }
{
    if slot.line == line && slot.age < age {
        slot.age
    } else {
        age
    }
}

/// The age of a line, or `ways` where no slot has it.
pub fn age_among(ways: u8, slots: &[Slot], line: u32) -> u8
    ensures { result ≡ age_in ways slots.now line }
{
    let mut age = ways;
    for slot in slots {
        age = age_with(slot, line, age);
    }
    age
}

fn fits_at(ways: u8, slot: &Slot, line: u32, age: u8) -> bool
    requires { 1 ≤ ways }
    ensures { result ≡ is_place ways line age slot.now }
{
    if age < ways {
        slot.line == line && slot.age == age
    } else {
        slot.age >= ways - 1
    }
}

// Where a line of that age is put.
fn place_of(ways: u8, slots: &[Slot], line: u32, age: u8) -> usize
    requires some { 1 ≤ ways }
    requires there { (k : ℕ) × IsPlaceAt ways line age slots.now k }
    ensures { IsPlaceAt ways line age slots.now result }
{
    for (index, slot) in slots.iter().enumerate() {
        if fits_at(ways, slot, line, age) {
            return index;
        }
    }
    0
}

fn grow(slots: &mut [Slot], limit: u8)
    ensures { slots.new ≡ map (older limit) slots.old }
{
    for slot in slots.iter_mut() {
        if slot.age < limit {
            slot.age += 1;
        }
    }
}

/// A line is fetched.
pub fn fetch(ways: u8, slots: &mut [Slot], line: u32)
    requires { AreSlots ways slots.old }
    ensures slots { AreSlots ways slots.new }
    ensures ages { IsFetched ways line slots.old slots.new }
{
    let age = age_among(ways, slots, line);
    if age > 0 {
        let place = place_of(ways, slots, line, age);
        grow(slots, age);
        slots[place] = Slot { line, age: 0 };
    }
}

// The greater one of a slot's age and that of its line in `other`, where it often stands at the same place.
fn raised_age(ways: u8, slot: &Slot, other: &[Slot], place: usize) -> u8
    ensures { result ≡ max slot.now.age (age_in ways other.now slot.now.line) }
{
    if slot.age >= ways {
        return slot.age;
    }
    if let Some(there) = other.get(place)
        && there.line == slot.line
        && there.age <= slot.age
    {
        return slot.age;
    }
    let age = age_among(ways, other, slot.line);
    if slot.age < age { age } else { slot.age }
}

// One slot goes up to the other state's age of its line, and whether that changed it.
fn raise_slot(ways: u8, slots: &mut [Slot], place: usize, other: &[Slot]) -> bool
    requires { place < length slots.old }
    ensures { IsRaisedAt ways other.now place slots.old slots.new result }
{
    let age = raised_age(ways, &slots[place], other, place);
    if slots[place].age < age {
        slots[place].age = age;
        true
    } else {
        false
    }
}

/// Each slot goes up to the other state's age of its line, and whether that changed one.
pub fn raise_slots(ways: u8, slots: &mut [Slot], other: &[Slot]) -> bool
    ensures slots { slots.new ≡ map (raised ways other.now) slots.old }
    ensures same { result ≡ false → slots.new ≡ slots.old }
    ensures falls { result ≡ true → rank_of ways slots.new < rank_of ways slots.old }
{
    let mut changed = false;
    for place in 0..slots.len() {
        if raise_slot(ways, slots, place, other) {
            changed = true;
        }
    }
    changed
}

/// How far all ages are from the number of ways.
pub fn room_in(ways: u8, slots: &[Slot]) -> u64
    requires { AreSlots ways slots.now }
    ensures { result ≡ rank_of ways slots.now }
{
    let mut room = 0;
    for slot in slots {
        room += (ways - slot.age) as u64;
    }
    room
}
