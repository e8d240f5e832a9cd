ghost use Rattle.std.specs.Prelude.{◌≡◌, ◌<◌, ◌≤◌, ◌+◌, ◌<ℤ◌, IfOk, length, pos};
ghost use Rattle.wc_simplex.specs.Inner.Machines.{AreWide, IsRegular};

use crate::choice::Choice;
use crate::halves::push_zeros;
use crate::lines::one_if;
use crate::machine_end::MachineEnd;
use crate::rows::Row;
use crate::tableau::Machine;
use std::alloc::{AllocError, Global};
use std::test::Fail;

// A machine of two rows over two columns, with an artificial column each.
fn two_rows(
    alloc: Global,
    rows: &[[i128; 6]; 2],
    goals: &[[i128; 6]; 2],
    basis: [usize; 2],
) -> Result<Machine, AllocError>
    ensures regular { IfOk result IsRegular }
    ensures rows { IfOk result (λ m. m.rows.items ≡ rows.now) }
    ensures basis { IfOk result (λ m. m.basis.items ≡ basis) }
    ensures right { IfOk result (λ m. (m.real ≡ 2) × (m.right ≡ 4)) }
{
    let mut made = Vec::new(alloc);
    made.push(Row::new(rows[0].to_vec(alloc)?))?;
    made.push(Row::new(rows[1].to_vec(alloc)?))?;
    Ok(Machine {
        rows: made,
        z: Row::new(goals[0].to_vec(alloc)?),
        w: Row::new(goals[1].to_vec(alloc)?),
        basis: basis.to_vec(alloc)?,
        real: 2,
        right: 4,
    })
}

// How the machine ends after at most so many pivots, and its basis there.
fn ended(
    alloc: Global,
    rows: &[[i128; 6]; 2],
    sums: [i128; 6],
    most: u64,
) -> Result<(MachineEnd, Vec<usize>), AllocError> {
    let mut machine = two_rows(alloc, rows, &[[-1, -1, 0, 0, 0, 1], sums], [2, 3])?;
    let end = machine.run_whole(alloc, most)?;
    Ok((end, machine.basis))
}

#[test]
fn a_pivot_more_is_refused(rt: HostRuntime) -> Result<(), Fail> {
    let alloc = rt.alloc();
    // the most pivots that are too few, one more, and the basis at the end
    let rows: [([[i128; 6]; 2], [i128; 6], [u64; 2], [usize; 2]); 3] = [
        // two pivots of the first phase
        (
            [[1, 0, 1, 0, 1, 0], [0, 1, 0, 1, 1, 0]],
            [-1, -1, 0, 0, -2, 1],
            [1, 2],
            [0, 1],
        ),
        // a tie, and then a basis at 0 that isn't a column and leaves
        (
            [[1, 1, 1, 0, 1, 0], [1, 0, 0, 1, 1, 0]],
            [-2, -1, 0, 0, -2, 1],
            [1, 2],
            [0, 1],
        ),
        // twice the same row: the basis of the second is left out
        (
            [[1, 1, 1, 0, 1, 0], [1, 1, 0, 1, 1, 0]],
            [-2, -2, 0, 0, -2, 1],
            [0, 1],
            [0, 3],
        ),
    ];
    for (rows, sums, most, basis) in &rows {
        let (refused, _) = ended(alloc, rows, *sums, most[0])?;
        assert!(rt; matches!(refused, MachineEnd::Many));
        let (enough, found) = ended(alloc, rows, *sums, most[1])?;
        assert!(rt; matches!(enough, MachineEnd::Best));
        assert_eq!(rt; found.as_slice(), &basis[..]);
    }
    Ok(())
}

// 2^126 - 1 and 2^126: twice the first one has 127 bits.
const HALF: i128 = 85070591730234615865843651857942052863;

// What the first pivot is where the rows have these right sides.
fn chosen(alloc: Global, first: i128, second: i128) -> Result<Choice, AllocError> {
    let rows = [[2, 0, 1, 0, first, 0], [1, 0, 0, 1, second, 0]];
    let machine = two_rows(
        alloc,
        &rows,
        &[[0, 0, 0, 0, 0, 1], [-3, 0, 0, 0, -1, 1]],
        [2, 3],
    )?;
    Ok(machine.choose(true))
}

// Whether a pivot at the first row and column stays in the range where the other row has this entry.
fn pivots(alloc: Global, entry: i128) -> Result<bool, AllocError> {
    let rows = [[2, 0, 1, 0, 1, 0], [1, entry, 0, 1, 1, 0]];
    let mut machine = two_rows(
        alloc,
        &rows,
        &[[0, 0, 0, 0, 0, 1], [-3, 0, 0, 0, -2, 1]],
        [2, 3],
    )?;
    let found = machine.pivot(alloc, 0, 0)?;
    Ok(found.is_some())
}

// The denominator of two counts of 1 over these.
fn denominator(alloc: Global, first: i128, second: i128) -> Result<Option<u128>, AllocError>
    requires first { pos 0 <ℤ first }
    requires second { pos 0 <ℤ second }
{
    let rows = [[first, 0, 0, 0, 1, 0], [0, second, 0, 0, 1, 0]];
    let machine = two_rows(
        alloc,
        &rows,
        &[[0, 0, 0, 0, 0, 1], [0, 0, 0, 0, 0, 1]],
        [0, 1],
    )?;
    Ok(machine.denominator())
}

#[test]
fn numbers_that_leave_their_range(rt: HostRuntime) -> Result<(), Fail> {
    let alloc = rt.alloc();
    // right side times entry, crosswise: twice the half and 1, then 2^127
    assert!(rt; matches!(chosen(alloc, 1, HALF)?, Choice::Pivots(0, 0)));
    assert!(rt; matches!(chosen(alloc, 1, HALF + 1)?, Choice::TooWide));
    // twice the entry
    assert!(rt; pivots(alloc, HALF)?);
    assert!(rt; !pivots(alloc, HALF + 1)?);
    // 2^64 (2^63 - 1), and 2^64 (2^64 - 1)
    let most = denominator(alloc, 18446744073709551616, 9223372036854775807)?;
    assert_eq!(rt; most, Some(170141183460469231713240559642174554112));
    assert_eq!(rt;
        denominator(alloc, 18446744073709551616, 18446744073709551615)?,
        None
    );
    Ok(())
}

const TWOS: [i128; 14] = [
    1, 2, 4, 8, 16, 32, 64, 128, 256, 512, 1024, 2048, 4096, 8192,
];

const FIVES: [i128; 13] = [
    5, 25, 125, 625, 3125, 15625, 78125, 390625, 1953125, 9765625, 48828125, 244140625, 1220703125,
];

const GOALS: [i128; 13] = [
    -1, -2, -4, -8, -16, -32, -64, -128, -256, -512, -1024, -2048, -4096,
];

fn cube_entry(own: usize, place: usize) -> i128
    requires { own < 13 }
{
    if place < own {
        TWOS[own - place + 1]
    } else {
        one_if(place == own)
    }
}

// The columns are each x and then the slack of its row.
fn cube_row(alloc: Global, size: usize, own: usize) -> Result<Row, AllocError>
    requires own { own < 13 }
    requires size { size ≤ 13 }
    ensures { IfOk result (λ r. length r ≡ size + size + 2) }
{
    let mut entries = Vec::new(alloc);
    for place in 0..size {
        entries.push(cube_entry(own, place))?;
        entries.push(one_if(place == own))?;
    }
    entries.push(FIVES[own])?;
    entries.push(0)?;
    Ok(Row::new(entries))
}

fn cube_goal(alloc: Global, size: usize) -> Result<Row, AllocError>
    requires { size ≤ 13 }
    ensures { IfOk result (λ r. length r ≡ size + size + 2) }
{
    let mut entries = Vec::new(alloc);
    for place in 0..size {
        entries.push(GOALS[size - place - 1])?;
        entries.push(0)?;
    }
    entries.push(0)?;
    entries.push(1)?;
    Ok(Row::new(entries))
}

fn no_goal(alloc: Global, size: usize) -> Result<Row, AllocError>
    requires { size ≤ 13 }
    ensures { IfOk result (λ r. length r ≡ size + size + 2) }
{
    let mut entries = Vec::new(alloc);
    push_zeros(&mut entries, size + size + 1)?;
    entries.push(1)?;
    Ok(Row::new(entries))
}

fn cube_rows(alloc: Global, size: usize) -> Result<Vec<Row>, AllocError>
    requires { size ≤ 13 }
    ensures wide { IfOk result (λ v. AreWide (size + size + 2) v.items) }
    ensures counted { IfOk result (λ v. length v.items ≡ size) }
{
    let mut rows = Vec::new(alloc);
    for own in 0..size {
        rows.push(cube_row(alloc, size, own)?)?;
    }
    Ok(rows)
}

fn slacks(alloc: Global, size: usize) -> Result<Vec<usize>, AllocError>
    requires { size ≤ 13 }
    ensures { IfOk result (λ v. length v.items ≡ size) }
{
    let mut basis = Vec::new(alloc);
    for own in 0..size {
        basis.push(own + own + 1)?;
    }
    Ok(basis)
}

// How the second phase ends after at most so many pivots on a cube after Klee and Minty 1972: the sum of 2^(size - 1 - i)
// times x_i is the greatest where each x_i with 2 (2^i x_0 + .. + 2 x_(i-1)) is at most 5^(i + 1).
fn cube_ended(alloc: Global, size: usize, most: u64) -> Result<(MachineEnd, i128), AllocError>
    requires { size ≤ 13 }
{
    let mut machine = Machine {
        rows: cube_rows(alloc, size)?,
        z: cube_goal(alloc, size)?,
        w: no_goal(alloc, size)?,
        basis: slacks(alloc, size)?,
        real: size + size,
        right: size + size,
    };
    let end = machine.run_whole(alloc, most)?;
    Ok((end, machine.z.entry(size + size)))
}

// The least column that enters goes through all corners of a cube, and the optimum is the last power of 5.
#[test]
fn pivots_are_made_up_to_the_last_one(rt: HostRuntime) -> Result<(), Fail> {
    let alloc = rt.alloc();
    let (refused, _) = cube_ended(alloc, 12, 4094)?;
    assert!(rt; matches!(refused, MachineEnd::Many));
    let (enough, value) = cube_ended(alloc, 12, 4095)?;
    assert!(rt; matches!(enough, MachineEnd::Best));
    assert_eq!(rt; value, 244140625);
    let (wanting, _) = cube_ended(alloc, 13, 5000)?;
    assert!(rt; matches!(wanting, MachineEnd::Many));
    Ok(())
}
