//! The places of rows in a table, the first number slowest.
ghost use Rattle.std.specs.Prelude.{◌≡◌, ◌+◌, ◌*◌, ◌≤◌, [], ◌∷◌, min};
ghost use Rattle.fin_struct.specs.Places.{rows_count, InRange, place, row_under};

/// The number of rows, or `u64::MAX` where that is greater.
pub fn count_rows(sizes: &[u32]) -> u64
    ensures { result ≡ min (rows_count sizes.now) 18446744073709551615 }
{
    let mut count: u64 = 1;
    for size in sizes {
        count = count.saturating_mul(u64::from(*size));
    }
    count
}

/// The place of a row in row-major order, under `first` where a slowest number stands before it.
pub fn place_of(first: usize, sizes: &[u32], row: &[u32]) -> usize
    requires in_range { InRange sizes.now row.now }
    requires small { (first + 1) * rows_count sizes.now ≤ 4194304 }
    ensures { result ≡ first * rows_count sizes.now + place sizes.now row.now }
{
    let mut at = first;
    for i in 0..row.len() {
        at = at * sizes[i] as usize + row[i] as usize;
    }
    at
}

/// The place of the arguments' row, under the world where there is one.
pub fn place_under(sizes: &[u32], world: Option<u32>, args: &[u32]) -> usize
    requires in_range { InRange sizes.now (row_under world args.now) }
    requires small { rows_count sizes.now ≤ 4194304 }
    ensures { result ≡ place sizes.now (row_under world args.now) }
{
    match world {
        None => place_of(0, sizes, args),
        // the rows that evaluators walk most: pairs of worlds, and elements at worlds
        Some(world) if args.len() == 1 => place_of_pair(sizes, world, args[0]),
        Some(world) => match sizes.split_first() {
            None => 0,
            Some((_, others)) => place_of(world as usize, others, args),
        },
    }
}

/// The place of a row of two numbers.
pub fn place_of_pair(sizes: &[u32], first: u32, second: u32) -> usize
    requires in_range { InRange sizes.now (first ∷ second ∷ []) }
    requires small { rows_count sizes.now ≤ 4194304 }
    ensures { result ≡ place sizes.now (first ∷ second ∷ []) }
{
    first as usize * sizes[1] as usize + second as usize
}
