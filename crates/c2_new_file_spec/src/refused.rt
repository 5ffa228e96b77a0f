// A redaction that is refused.

use c2_base::Text;
use c2_rules::Code;

/// A redaction that is refused.
#[derive(Debug, Drop)]
pub struct RefusedRedaction {
    /// What the definition says of it, as it stands there.
    pub text: Text,

    /// Why it is refused.
    pub code: Code,
}
