// The first test that fails, of tests in their order.
ghost use Rattle.std.specs.Prelude.{◌≡◌};
ghost use Rattle.adm_commands.specs.Tests.{first_failing};

use adm_types::Refusal;

/// The refusal of the first test that fails.
pub(crate) fn first_failing(tests: &[(bool, Refusal)]) -> Option<Refusal>
    ensures { result ≡ first_failing tests.now }
{
    for (passes, refusal) in tests {
        if !*passes {
            return Some(*refusal);
        }
    }
    None
}
