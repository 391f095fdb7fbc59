ghost use Rattle.std.specs.Prelude.{◌≡◌, ◌+◌, ◌-◌, ◌≤◌, ◌++◌, take, drop, vec_len, vec_capacity};

// Takes the elements from the place `from` to the place `to` out, in one shift. The library's `drain` also
// reverses the elements that go and takes them out one by one, so that taking plain ones off the end costs the more the more they are.
pub(crate) fn cut<T: Drop>(v: &mut Vec<T>, from: usize, to: usize)
    requires forward { from ≤ to }
    requires within { to ≤ vec_len v.old }
    ensures items { v.new.items ≡ take from v.old.items ++ drop to v.old.items }
    ensures len { vec_len v.new + (to - from) ≡ vec_len v.old }
    ensures room { vec_capacity v.new ≡ vec_capacity v.old }
{
    let n = v.len();
    let all = v.as_mut_slice();
    let rest = &mut all[from..n];
    rest.rotate_left(to - from);
    v.truncate(n - (to - from));
}
