// What holds of dossiers, for every reader.
ghost use Rattle.std.specs.Prelude.{ℕ, List};
ghost use Rattle.audit_command.specs.Audit.{HaveOneAudit};
ghost use Rattle.audit_command.specs.Best.{HaveOneBest};

/// Shows that bytes with a fault are no dossier. At most one line reports that fault, and at most one the verdict on a dossier.
pub fn one_audit()
    ensures { (bytes : List ℕ) → HaveOneAudit bytes }
{
    special_audit::laws::one_finding();
}

/// Shows that bytes have at most one output of `audit best`.
pub fn one_best()
    ensures { (bytes : List ℕ) → HaveOneBest bytes }
{
    one_audit();
    special_audit::laws::one_finding();
    best_audit::laws::one_best_verdict();
}
