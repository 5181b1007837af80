// Tests over a list, as definitions, and what the turns of a loop over one show. In code: whether bytes are all 0.
#![tactic(auto)]

ghost use Rattle.std.specs.Prelude.{◌≡◌, eqb};
ghost use Rattle.scan.specs.Scan.{every};

// Whether all bytes are 0. All of them are looked at, so that the chain becomes vector code.
pub fn all_zero(bytes: &[u8]) -> bool
    ensures { result ≡ every (λ b. eqb b 0) bytes.now }
{
    bytes.iter().fold(0u8, |bits, b| bits | b) == 0
}
