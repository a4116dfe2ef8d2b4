// Whether two lists of octets are the same.
ghost use Rattle.std.specs.Prelude.{◌≡◌};
ghost use Rattle.bench_log.specs.Comparison.{same};

#[tactic(auto, using(crate::proofs::Equals::same_pointwise))]
pub(crate) fn same(a: &[u8], b: &[u8]) -> bool
    ensures { result ≡ same a.now b.now }
{
    a == b
}
