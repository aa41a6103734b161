// Whether a sheet is laid.
ghost use Rattle.std.specs.Prelude.{◌≡◌};
ghost use Rattle.engine.specs.View.{state};

use crate::hold::Sheet;

impl Sheet<'_, '_> {
    /// Whether the sheet is laid.
    pub fn is_laid(&self) -> bool
        ensures { result ≡ (state self.now).laid }
    {
        self.laid
    }
}
