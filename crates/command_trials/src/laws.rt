//! What a certificate of tables says of trials under them.

ghost use Rattle.certify.specs.Certificates.{IsCertificate, SaysSafe, SaysNeverStuck};
ghost use Rattle.certify.specs.declared.certifying.Certificate.{Certificate};
ghost use Rattle.trials.specs.Making.{TrialsAreSafe, TrialsAreSound};
ghost use Rattle.trials.specs.Terms.{Terms, AreLawful};

use certify::certified_tables_are_safe;
use trials::trials_of_safe_runs;

/// Under tables that are certified as safe no trial breaks, whoever makes it, and the completions of each are sequentially
/// consistent; and under those that are certified as never stuck none is stuck.
pub fn trials_under_certified_tables()
    ensures safe { (certificate : Certificate) (terms : Terms) →
        IsCertificate terms.tables certificate → SaysSafe certificate → AreLawful terms → TrialsAreSafe terms }
    ensures sound { (certificate : Certificate) (terms : Terms) →
        IsCertificate terms.tables certificate → SaysNeverStuck certificate → AreLawful terms → TrialsAreSound terms }
{
    certified_tables_are_safe();
    trials_of_safe_runs();
}
