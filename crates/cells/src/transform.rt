//! The kinds that are made of butterflies: Dct2 and Hornuss.

ghost use Rattle.std.specs.Prelude.{◌≡◌, ℕ, ◌+◌, ◌*◌, ◌/◌, ◌%◌, ◌<◌, ◌≤◌, ◌&&◌, if◌then◌else◌, ◌==◌, nat_eq, [], slice_index_or};
ghost use Rattle.dct_2d.specs.Plane.{Patch};
ghost use Rattle.dct.specs.Transform.{at};
ghost use Rattle.cells.specs.Cells.{cell, butterfly_at as mixed, butterflies, quartered, residual_sum as residual_sum_of, dct2, hornuss, hornuss_quarter as raised_from};
ghost use Rattle.cells.specs.Passes.{square, Quarter, four_by_four, taken, average_of, raised};

/// The sums of four numbers that go to a square of 2 × 2, in row order.
fn butterfly(c00: f32, c01: f32, c10: f32, c11: f32) -> [f32; 4]
    ensures { result ≡ square c00 c01 c10 c11 }
{
    let s00 = c00 + c01 + c10 + c11;
    let s01 = c00 + c01 - c10 - c11;
    let s10 = c00 - c01 + c10 - c11;
    let s11 = c00 - c01 - c10 + c11;
    [s00, s01, s10, s11]
}

/// Writes the square (x, y) from the four numbers of `old` that lie `half` apart.
fn put_square(old: &[f32; 64], new: &mut [f32; 64], half: usize, x: usize, y: usize)
    requires half { half ≤ 4 }
    requires across { x < half }
    requires down { y < half }
    ensures { (p q : ℕ) → p < 8 → q < 8 → at new.new (q * 8 + p) ≡ (if nat_eq (p / 2) x && q / 2 == y then mixed half (cell old.now) p q else at new.old (q * 8 + p)) }
{
    let sums = butterfly(
        old[y * 8 + x],
        old[y * 8 + (x + half)],
        old[(y + half) * 8 + x],
        old[(y + half) * 8 + (x + half)],
    );
    let first = 16 * y + 2 * x;
    new[first] = sums[0];
    new[first + 1] = sums[1];
    new[first + 8] = sums[2];
    new[first + 9] = sums[3];
}

/// The butterflies of the top left square of this size, 2, 4 or 8.
pub fn aux_idct2_in_place(block: &mut [f32; 64], size: usize)
    requires { size ≤ 8 }
    ensures { cell block.new ≡ butterflies (size / 2) (cell block.old) }
{
    let old = *block;
    let half = size / 2;
    // counted: a square is named by its place
    for y in 0..half {
        for x in 0..half {
            put_square(&old, block, half, x, y);
        }
    }
}

pub fn transform_dct2(coeff: &mut [f32; 64])
    ensures { cell coeff.new ≡ dct2 (cell coeff.old) }
{
    aux_idct2_in_place(coeff, 2);
    aux_idct2_in_place(coeff, 4);
    aux_idct2_in_place(coeff, 8);
}

/// Every other number of every other row, from (x, y) on.
fn take(coeff: &[f32; 64], x: usize, y: usize) -> [f32; 16]
    requires across { x < 2 }
    requires down { y < 2 }
    ensures { result ≡ taken coeff.now x y }
{
    std::array::from_fn(|i| coeff[(y + 2 * (i / 4)) * 8 + (x + 2 * (i % 4))])
}

/// The sum of all but the first number, which starts at +0.
fn residual_sum(q: &[f32; 16]) -> f32
    ensures { result ≡ residual_sum_of (four_by_four q.now) 15 }
{
    let others = &q[1..];
    let mut sum = 0.0;
    for number in others {
        sum += *number;
    }
    sum
}

/// The first number less a sixteenth of the sum of the others.
fn average(q: &[f32; 16]) -> f32
    ensures { result ≡ average_of q.now }
{
    q[0] - residual_sum(q) / 16.0
}

/// The samples of a quarter: the number at (1, 1) goes to (0, 0), a zero takes its place, and each gains the average.
fn raise(q: &[f32; 16], average: f32) -> [f32; 16]
    ensures { result ≡ raised q.now average }
{
    std::array::from_fn(|i| match i {
        0 => q[5] + average,
        5 => 0.0 + average,
        _ => q[i] + average,
    })
}

/// The quarter (x, y) of the samples.
fn hornuss_quarter(coeff: &[f32; 64], x: usize, y: usize) -> [f32; 16]
    requires across { x < 2 }
    requires down { y < 2 }
    ensures { Quarter result (raised_from (cell coeff.now) x y) }
{
    let q = take(coeff, x, y);
    raise(&q, average(&q))
}

/// Writes 4 × 4 numbers over the quarter (x, y).
fn place(quarter: &[f32; 16], out: &mut [f32; 64], x: usize, y: usize)
    requires across { x < 2 }
    requires down { y < 2 }
    ensures { (p q : ℕ) → p < 8 → q < 8 → at out.new (q * 8 + p) ≡ (if nat_eq (p / 4) x && q / 4 == y then at quarter.now (q % 4 * 4 + p % 4) else at out.old (q * 8 + p)) }
{
    for (i, sample) in quarter.iter().enumerate() {
        out[(y * 4 + i / 4) * 8 + (x * 4 + i % 4)] = *sample;
    }
}

/// Writes four quarters, in row order.
fn assemble(quarters: &[[f32; 16]; 4], out: &mut [f32; 64])
    ensures { (f : ℕ → ℕ → Patch) → ((x y : ℕ) → x < 2 → y < 2 → Quarter (slice_index_or quarters.now (y * 2 + x) []) (f x y)) → cell out.new ≡ quartered f }
{
    // kept as four writes: with one `from_fn` over the quarters Hornuss takes 4.1 ns a sample, and 1.9 so
    let [a, b, c, d] = quarters;
    place(a, out, 0, 0);
    place(b, out, 1, 0);
    place(c, out, 0, 1);
    place(d, out, 1, 1);
}

pub fn transform_hornuss(coeff: &mut [f32; 64])
    ensures { cell coeff.new ≡ hornuss (cell coeff.old) }
{
    aux_idct2_in_place(coeff, 2);
    let quarters = [
        hornuss_quarter(coeff, 0, 0),
        hornuss_quarter(coeff, 1, 0),
        hornuss_quarter(coeff, 0, 1),
        hornuss_quarter(coeff, 1, 1),
    ];
    assemble(&quarters, coeff);
}
