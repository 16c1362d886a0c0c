ghost use Rattle.std.specs.Prelude.{List};
ghost use Rattle.lf_base.specs.declared.values.Value.{Value};
ghost use Rattle.lf_base.specs.PlainState.{Row};

/// What stands behind a cown while no behaviour holds it. It has no calls: it
/// tells contracts alone what it stands for.
pub trait Stored {
    /// The value that the cown's field has.
    ghost content: { Self → Value };

    /// The rows that it holds, by rising name.
    ghost rows: { Self → List Row };
}
