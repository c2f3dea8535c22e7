//! How far apart the places of one hive are.

ghost use Rattle.rule_laws.specs.Spans.{SpanLaw};

/// The coordinates of two occupied places of one hive differ by at most 27. A walk from one to the
/// other meets each coordinate between theirs, and there are 28 pieces.
pub fn hives_are_short()
    ensures { SpanLaw }
{}
