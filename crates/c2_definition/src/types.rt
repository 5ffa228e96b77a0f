// What a definition file says.

use c2_base::{Blob, Text, Texts};
use c2_hash::Alg;
use std::marker::Model;

/// The most bytes of a protected header.
pub const MAX_PROTECTED: usize = 65_536;

/// The fewest bytes that are reserved for a signed message.
pub const MIN_RESERVE: u64 = 64;

/// The most bytes that are reserved for a signed message.
pub const MAX_RESERVE: u64 = 1_048_576;

/// The content box of a new assertion.
#[derive(Clone, Copy, Debug, PartialEq, Eq)]
pub enum Payload {
    /// A box `cbor`, which holds one item.
    Cbor,

    /// A box `json`, whose bytes pass unread.
    Json,
}

/// An assertion of the new manifest.
#[derive(Debug, Drop)]
pub struct NewAssertion {
    /// The label of the assertion.
    pub label: Text,

    /// The content box of the assertion.
    pub kind: Payload,

    /// The bytes in that box.
    pub bytes: Blob,
}

/// New assertions, in their order.
#[derive(Debug, Drop)]
pub struct NewAssertions {
    items: Vec<NewAssertion>,
}

impl Model for NewAssertions {
    ghost use Rattle.std.specs.Prelude.{List};
    ghost use Rattle.c2_definition.specs.declared.types.NewAssertion.{NewAssertion};

    ghost Value = { List NewAssertion };

    ghost view = { λ n. n.items.items };
}

impl NewAssertions {
    ghost use Rattle.std.specs.Prelude.{◌≡◌};

    /// These assertions. Takes no memory.
    pub fn from_list(items: Vec<NewAssertion>) -> NewAssertions
        ensures { result ≡ items.items }
    {
        NewAssertions { items }
    }

    /// The assertions. Takes no memory.
    pub fn as_slice(&self) -> &[NewAssertion]
        ensures { result.now ≡ self.now }
    {
        self.items.as_slice()
    }
}

/// What a new manifest holds.
#[derive(Debug, Drop)]
pub struct Definition {
    /// The label of the manifest: `urn:c2pa:` and a UUID.
    pub label: Text,

    /// The claim's `instanceID`, which isn't empty.
    pub instance_id: Text,

    /// The name of the claim's generator, which isn't empty.
    pub generator: Text,

    /// The claim's title, which may be empty.
    pub title: Option<Text>,

    /// The protected header of the signed message, at most `MAX_PROTECTED` bytes.
    pub protected: Blob,

    /// How many bytes are reserved for the signed message: `MIN_RESERVE` to `MAX_RESERVE`.
    pub reserve: u32,

    /// The assertions that are written before the binding.
    pub assertions: NewAssertions,

    /// The URIs of the assertions of older manifests that are redacted.
    pub redact: Texts,

    /// The algorithm of each digest in the new manifest.
    pub alg: Alg,
}

/// What is refused of a definition file, in the order in which it is tested.
#[derive(Clone, Copy, Debug, PartialEq, Eq)]
pub enum DefinitionField {
    /// The file has more than `MAX_INPUT_LEN` bytes.
    Size,

    /// The bytes aren't JSON, or no object.
    Json,

    /// A key is none of a definition's.
    Other,

    /// `label` isn't `urn:c2pa:` and a UUID with hyphens and lower case digits.
    Label,

    /// `instance_id` is no text, or empty.
    InstanceId,

    /// `generator` is no text, or empty.
    Generator,

    /// `title` is there and no text.
    Title,

    /// `protected` isn't hex, or of more than `MAX_PROTECTED` bytes.
    Protected,

    /// `reserve` isn't a number from `MIN_RESERVE` to `MAX_RESERVE`, written without a fraction and an exponent.
    Reserve,

    /// `assertions` is there and no list of new assertions.
    Assertions,

    /// `redact` is there and no list of texts.
    Redact,

    /// `alg` is there and none of the texts `sha256`, `sha384` and `sha512`.
    Alg,
}
