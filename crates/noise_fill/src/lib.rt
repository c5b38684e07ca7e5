// A row of numbers, each of what a call gives for its place.
#![tactic(auto)]

ghost use Rattle.std.specs.Prelude.{ℕ, ◌≤◌, ◌<◌, Float, length};
ghost use Rattle.noise_tables.specs.Row.{Row};
ghost use Rattle.noise_fill.specs.Fill.{Gives};

// The first n places of a row: place i holds value(i).
pub fn fill_row<V: Fn(usize) -> f32>(n: usize, value: V, row: &mut [f32])
    requires calls { (i : ℕ) → i < n → V.pre value i }
    requires room { n ≤ length row.old }
    ensures { (w : ℕ → Float) → Gives n (V.post value) w → Row n w row.new }
{
    for (i, v) in row[..n].iter_mut().enumerate() {
        *v = value(i);
    }
}
