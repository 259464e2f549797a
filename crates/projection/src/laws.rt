//! Laws of the definitions and rows worked by hand, as contracts.

ghost use Rattle.projection.specs.ProjectionLaws.{NoLarger, IncludesNamedFields};
ghost use Rattle.projection.specs.Rows.{ProjectionRows};

/// What projections leave.
pub fn projection_rows()
    ensures { ProjectionRows }
{}

/// What a projection leaves is spelled in no more bytes and nests no deeper.
pub fn leaves_no_more()
    ensures { NoLarger }
{}

/// An inclusion of fields keeps exactly the fields of these names, whole and in order.
pub fn includes_named_fields()
    ensures { IncludesNamedFields }
{}
