// The front of a slice, written place by place.
ghost use Rattle.std.specs.Prelude.{◌≡◌, ℕ, ◌<◌, ◌≤◌, length, slice_index_or};

/// Writes the first `count` items, each as the rule makes it of its place and of what stood there. The rest stays.
pub fn write_front<T: Copy, F: Fn(usize, T) -> T>(items: &mut [T], count: usize, rule: F)
    requires fits { count ≤ length items.old }
    requires callable { (m : ℕ) → m < count → (x : T) → F.pre rule m x }
    ensures long { length items.new ≡ length items.old }
    ensures each { (m : ℕ) (d : T) → m < count → F.post rule m (slice_index_or items.old m d) (slice_index_or items.new m d) }
    ensures rest { (m : ℕ) (d : T) → count ≤ m → slice_index_or items.new m d ≡ slice_index_or items.old m d }
{
    // By number: of items that an adapter of `iter_mut` writes no proof is left.
    for m in 0..count {
        items[m] = rule(m, items[m]);
    }
}
