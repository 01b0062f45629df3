//! Laws of certificates' texts, each the contract of a function with an empty body.

ghost use Rattle.std.specs.Prelude.{◌≡◌, ◌↔◌, ℕ, ℤ, List, [], ◌∷◌, ◌++◌, ◌+◌, ◌/◌, ◌^◌, ◌<◌, ◌≤◌, length, unsigned_abs, IfSome, All};
ghost use Rattle.uc_model.specs.Prelude.{IsLawfulInstance, thermal_count, renewable_count};
ghost use Rattle.uc_model.specs.Decimal.{whole_text};
ghost use Rattle.uc_model.specs.declared.instance.Instance.{Instance};
ghost use Rattle.dual_model.specs.Prelude.{Certificate, CertificateHolds};
ghost use Rattle.branch_tree.specs.Prelude.{tree_bound, IsWhole, written_tables, certificate_of, written_of};
ghost use Rattle.branch_tree.specs.declared.found.Found.{Found};
ghost use Rattle.cert_text.specs.CertificateText.{Version, has_price, listing_of, certificate_lines, certificate_text};
ghost use Rattle.cert_text.specs.Grammar.{Head, Reaches, CertKind, IsKindAt};
ghost use Rattle.cert_text.specs.TextConditions.{IsMoney, IsScheduleText, HasText, HasWrittenText};

/// A number is within its range exactly where its text has no more digits than the range says, those of the
/// decimals of money among them.
#[tactic(auto, using(crate::proofs::FormLaws::digits_range, crate::proofs::FormLaws::money_range))]
pub fn ranges_count_digits()
    ensures whole { (digits n : ℕ) → 0 < digits → (length (whole_text n) ≤ digits) ↔ (n < 10 ^ digits) }
    ensures money { (n : ℤ) → (length (whole_text (unsigned_abs n / 1000000)) + 6 ≤ 38) ↔ IsMoney n }
{}

/// The certificate of an answer, whose tree keeps what every tree keeps, has a text in the version in which it is written where its
/// schedule has one, its bound is in the range of money, and the rows of its tables can be counted.
#[tactic(auto, using(crate::proofs::Parts::found_has_text))]
pub fn found_certificates_have_text()
    ensures { (version : Version) (instance : Instance) (found : Found) → IsLawfulInstance instance → IsWhole found.tree
        → CertificateHolds instance (certificate_of instance found)
        → IfSome (written_of found.schedule) (IsScheduleText version (has_price instance.a instance.b) instance.periods (thermal_count instance) (renewable_count instance))
        → IfSome (tree_bound found.tree) IsMoney
        → All (λ table. length table.ramps < 10 ^ 18) (written_tables found)
        → HasWrittenText (certificate_of instance found) }
{}

/// A certificate that has a text in some version has one in the version in which it is written.
#[tactic(auto, using(crate::proofs::Parts::written_text_is))]
pub fn certificates_are_written()
    ensures { (version : Version) (c : Certificate) → HasText version (listing_of c) → HasWrittenText c }
{}

/// The text of a certificate tells where it ends, and all that it lists: no certificate's text is a front of
/// another's, in whichever versions, and two with one text have one listing and one version.
#[tactic(auto, using(crate::proofs::GrammarLaws::texts_apart))]
pub fn texts_tell_certificates_apart()
    ensures { (version another : Version) (c d : Certificate) (more : List ℕ) → HasText version (listing_of c) → HasText another (listing_of d)
        → certificate_text version c ++ more ≡ certificate_text another d → (listing_of c ≡ listing_of d) × (version ≡ another) × (more ≡ []) }
{}

/// The grammar by lines is that of certificates: lines that may stand one behind the other, so that none is to
/// come, are the lines of a certificate in some version, and these may stand so.
#[tactic(auto, using(crate::proofs::GrammarLaws::whole_run_is_certificate, crate::proofs::GrammarLaws::certificate_runs))]
pub fn lines_that_may_stand_make_certificates()
    ensures whole { (lines : List (List ℕ)) → Reaches (Head ∷ []) lines []
        → (version : Version) × (c : Certificate) × HasText version (listing_of c) × (lines ≡ certificate_lines version (listing_of c)) }
    ensures stand { (version : Version) (c : Certificate) → HasText version (listing_of c) → Reaches (Head ∷ []) (certificate_lines version (listing_of c)) [] }
{}

/// Bytes have at most one fault that is told by its line.
#[tactic(auto, using(crate::proofs::GrammarLaws::one_fault))]
pub fn bytes_have_one_fault()
    ensures { (bytes : List ℕ) (line other : ℕ) (kind another : CertKind)
        → IsKindAt bytes line kind → IsKindAt bytes other another → (line ≡ other) × (kind ≡ another) }
{}
