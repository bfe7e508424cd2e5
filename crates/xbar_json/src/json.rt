ghost use Rattle.std.specs.Prelude.{◌≡◌, ◌++◌, ℕ, List, OnOk, string_bytes};

use std::alloc::AllocError;

/// What has a JSON text.
pub trait Json {
    // The text.
    ghost json: { Self → List ℕ };

    /// Appends the text. If memory runs out, a part of it may have been added.
    fn add_json(&self, text: &mut String) -> Result<(), AllocError>
        ensures { OnOk result (string_bytes text.new ≡ string_bytes text.old ++ json self.now) };
}
