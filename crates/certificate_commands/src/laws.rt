//! Laws of certificates that are written and checked, as contracts of functions that do nothing.

ghost use Rattle.certificate_commands.specs.Laws.{
  AcceptedIsTrue,
  CertificatesAlone,
  CertificatesAreAccepted,
  CertifiedIsAccepted,
  CertifiesAreDone,
  CheckedIsTrue,
  ChecksAreDone,
  HeldCitedIsAccepted,
  HeldIsAccepted,
};
ghost use Rattle.certificate_commands.specs.MigrationLaws.{MigratedIsAccepted, MigrationsAreDone};

/// The claim of a text that is accepted is true: its move is the best one at its depth, and has its
/// value.
pub fn accepted_claims_are_true()
    ensures { AcceptedIsTrue }
{}

/// If a check of a text is done, the claim of the text is true.
pub fn checked_claims_are_true()
    ensures { CheckedIsTrue }
{}

/// A text is accepted if its indices hold for its claim.
pub fn held_claims_are_accepted()
    ensures { HeldIsAccepted }
{}

/// A text of the second version is accepted if its tokens hold for its claim.
pub fn held_tokens_are_accepted()
    ensures { HeldCitedIsAccepted }
{}

/// The texts that are accepted are exactly the following. They have a head, its game is not over,
/// and its move text denotes a move. After the head there are only items that hold for its claim:
/// indices in the first version, and tokens in the second.
pub fn certificates_alone_are_accepted()
    ensures { CertificatesAlone }
{}

/// The certificate of the best move of a game that is not over is accepted.
pub fn certificates_are_accepted()
    ensures { CertificatesAreAccepted }
{}

/// What is written by an answer that ends with `Done` is accepted.
pub fn certified_moves_are_accepted()
    ensures { CertifiedIsAccepted }
{}

/// The law covers an input that is exactly one line, a game string of a game that is not over. If
/// neither the source nor the sink counted a failure, the answer ends with `Done`, or because
/// memory ran out.
pub fn certifies_are_done()
    ensures { CertifiesAreDone }
{}

/// The law covers a check of a text of fewer than 1,099,511,627,776 bytes that is accepted. If
/// neither the source nor the sink counted a failure, it ends with `Done`, or because memory ran
/// out.
pub fn checks_are_done()
    ensures { ChecksAreDone }
{}

/// The law covers a text of fewer than 1,099,511,627,776 bytes that is a certificate of the first
/// version and holds. It is made into one that cites. If neither the source nor the sink counted a
/// failure, this ends with `Done`, or because memory ran out.
pub fn migrations_are_done()
    ensures { MigrationsAreDone }
{}

/// If a text was made into one that cites, a check accepts what was written.
pub fn migrated_texts_are_accepted()
    ensures { MigratedIsAccepted }
{}
