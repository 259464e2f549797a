//! Laws of the definitions, as contracts of functions that do nothing.

ghost use Rattle.ext_json.specs.RoundTrip.{CanonicalReadsBack};

/// Reading what canonical writing wrote gives the document back.
pub fn canonical_reads_back()
    ensures { CanonicalReadsBack }
{}
