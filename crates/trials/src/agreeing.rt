// Lists that agree.

// Whether two lists are as long as each other, and agree item by item.
pub(super) fn agree<A, B, F: Fn(&A, &B) -> bool>(these: &[A], those: &[B], alike: F) -> bool
    requires { F.IsAlwaysCallable alike }
{
    these.len() == those.len()
        && these
            .iter()
            .zip(those.iter())
            .all(|(this, that)| alike(this, that))
}
