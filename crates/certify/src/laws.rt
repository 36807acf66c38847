//! What holds of all runs under certified tables.

ghost use Rattle.std.specs.Prelude.{◌≡◌, ℕ, List, length};
ghost use Rattle.base.specs.Extent.{Extent, IsWithinLimits};
ghost use Rattle.base.specs.declared.step.Step.{Step};
ghost use Rattle.tables.specs.Tables.{Tables};
ghost use Rattle.machine.specs.Coherence.{Safe};
ghost use Rattle.machine.specs.Machine.{after, opened};
ghost use Rattle.machine.specs.Unstuck.{Flowing, Unstuck};
ghost use Rattle.certify.specs.Certificates.{IsCertificate, SaysSafe, SaysFlowing, SaysNeverStuck};
ghost use Rattle.certify.specs.declared.certifying.Certificate.{Certificate};

use closing::{blamed_tables_are_unstuck, closed_tables_are_safe};
use machine::{restrained_tables_are_safe, restrained_tables_are_unstuck};

/// Each run is safe under tables of which a certificate says so; and where it says that messages flow, or that nothing is ever
/// stuck, that is so of each.
pub fn certified_tables_are_safe()
    ensures safe { (tables : Tables) (certificate : Certificate) (shape : Extent) (opening : List ℕ) (steps : List Step) →
        IsCertificate tables certificate → SaysSafe certificate → IsWithinLimits shape → length opening ≡ shape.blocks →
        Safe shape tables opening steps }
    ensures flowing { (tables : Tables) (certificate : Certificate) (shape : Extent) (opening : List ℕ) (steps : List Step) →
        IsCertificate tables certificate → SaysFlowing certificate → IsWithinLimits shape → length opening ≡ shape.blocks →
        Flowing tables (after tables (opened shape opening) steps).state }
    ensures unstuck { (tables : Tables) (certificate : Certificate) (shape : Extent) (opening : List ℕ) (steps : List Step) →
        IsCertificate tables certificate → SaysNeverStuck certificate → IsWithinLimits shape → length opening ≡ shape.blocks →
        Unstuck tables (after tables (opened shape opening) steps).state }
{
    restrained_tables_are_safe();
    restrained_tables_are_unstuck();
    closed_tables_are_safe();
    blamed_tables_are_unstuck();
}
