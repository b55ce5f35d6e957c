//! The kinds of stems and ranges, and their types (ShEx 2.1, section 5.4 and appendix A).

ghost use Rattle.std.specs.Prelude.{◌≡◌};
ghost use Rattle.shexj_reader.specs.Values.{range_type, stem_type};

/// What a stem or a range is of.
#[derive(Clone, Copy, Debug)]
pub enum StemKind {
    /// IRIs.
    Iri,
    /// Literals, by their lexical forms.
    Literal,
    /// Literals, by their language tags.
    Language,
}

/// The type of the stems of a kind.
pub fn stem_type(kind: StemKind) -> &'static str
    ensures { result.now ≡ stem_type kind }
{
    match kind {
        StemKind::Iri => "IriStem",
        StemKind::Literal => "LiteralStem",
        StemKind::Language => "LanguageStem",
    }
}

/// The type of the ranges of a kind.
pub fn range_type(kind: StemKind) -> &'static str
    ensures { result.now ≡ range_type kind }
{
    match kind {
        StemKind::Iri => "IriStemRange",
        StemKind::Literal => "LiteralStemRange",
        StemKind::Language => "LanguageStemRange",
    }
}
