//! The lines before the one that departs.

ghost use Rattle.std.specs.Prelude.{◌≡◌, ℕ, ◌-◌, ◌∷◌, Bool, List, Some, Ok};
ghost use Rattle.history_text.specs.Headers.{header_of};
ghost use Rattle.hand_events.specs.declared.events.Header.{Header};
ghost use Rattle.hand_laws.specs.Before.{Stand};
ghost use Rattle.hand_audit.specs.Lines.{nothing, players_of};
ghost use Rattle.hand_verdict.specs.declared.cause.Cause.{Cause};
ghost use Rattle.hand_audit.specs.Verdict.{audit_of};
ghost use Rattle.hand_verdict.specs.declared.verdicts.HandAudit.TheVariants.{Rejected};

/// A law on rejections. Of a hand that is rejected at a line: every line before it, after the header
/// line, can be read, and its event may stand after those of the lines before.
pub fn law_lines_before_stand()
    ensures { (number : ℕ) (line : List ℕ) (lines : List (List ℕ)) (header : Header)
        → header_of line ≡ Ok header
        → (departs : ℕ) (cause : Cause) (hundredths : Bool)
        → audit_of number (line ∷ lines) ≡ Some (Rejected departs cause hundredths)
        → Stand header (players_of header lines) nothing lines (departs - number - 1) }
{}
