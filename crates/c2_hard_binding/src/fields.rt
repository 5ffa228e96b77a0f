// The fields of a binding, and what they cover of its file.
ghost use Rattle.std.specs.Prelude.{◌≡◌, ℕ, IfOk, MatchResult};
ghost use Rattle.std.specs.Option.{ForSome};
ghost use Rattle.c2_spec.specs.Cbor.View.{view};
ghost use Rattle.c2_rules.specs.Binding as form;
ghost use Rattle.c2_rules.specs.Binding.{Binding};
ghost use Rattle.c2_hard_binding.specs.Bindings.{is_bmff_kind};
ghost use Rattle.c2_container.specs.Contained.{HasRootsInside};
ghost use Rattle.c2_base.specs.Source.{ReadsSource};

use c2_assertion::{BmffHash, DataHash, FieldError, Kind, read_bmff_hash, read_data_hash};
use c2_base::{Failed, Source, Text};
use c2_bmff::Exclusion;
use c2_bmff::types::Roots;
use c2_cbor_fields::field;
use c2_container::Container;
use c2_cover::{Cover, CoverError, bmff_cover, data_cover};
use c2_rules::Code;
use c2_spec::Cbor;
use std::alloc::Global;

/// The fields of a binding, by its kind.
#[derive(Drop)]
pub enum HardBinding<'c> {
    /// The fields of a data hash.
    Data(DataHash),

    /// The fields of a BMFF hash, and the root boxes of its file.
    Bmff(BmffHash, &'c Roots),
}

/// Whether this is a BMFF hash.
fn is_bmff_hash(kind: Kind) -> bool
    ensures { result ≡ is_bmff_kind kind }
{
    match kind {
        Kind::BmffHash => true,
        _ => false,
    }
}

/// Why a BMFF hash has no place in a JPEG.
fn jpeg_refusal(item: &Cbor) -> FieldError
    ensures { result ≡ form.jpeg_refusal (view item.now) }
{
    match field(item, "merkle") {
        Some(_) => FieldError::Merkle,
        None => FieldError::Form,
    }
}

/// What a BMFF hash excludes.
fn bmff_exclusions(fields: &BmffHash) -> &[Exclusion]
    ensures { result.now ≡ fields.now.exclusions }
{
    fields.exclusions.as_slice()
}

impl<'c> HardBinding<'c> {
    ghost use Rattle.c2_hard_binding.specs.Fields.{IsBindingFields, CoversAs, HasBoxesInside};
    ghost use Rattle.c2_hard_binding.specs.Fields.{HasNoCover, IsCoverCause, ReadsAs, code_of};
    ghost use Rattle.c2_hard_binding.specs.Fields.{named_alg, named_hash};

    /// The fields of an item of this kind, in a file of this container, or the first that is refused.
    pub fn read(
        alloc: Global,
        container: &'c Container,
        kind: Kind,
        item: &Cbor,
    ) -> Result<HardBinding<'c>, FieldError>
        ensures fields { ReadsAs container.now kind (view item.now) result }
        ensures code { IfOk result (λ h. code_of h ≡ form.mismatch_code kind) }
        ensures inside { (len : ℕ) → HasRootsInside len container.now
            → IfOk result (HasBoxesInside len) }
    {
        if !is_bmff_hash(kind) {
            return match read_data_hash(alloc, item) {
                Ok(fields) => Ok(HardBinding::Data(fields)),
                Err(error) => Err(error),
            };
        }
        let roots = match container {
            Container::Jpeg => return Err(jpeg_refusal(item)),
            Container::Bmff(roots) => roots,
        };
        match read_bmff_hash(alloc, item) {
            Ok(fields) => Ok(HardBinding::Bmff(fields, roots)),
            Err(error) => Err(error),
        }
    }

    /// The algorithm that they name.
    pub fn alg(&self) -> &Option<Text>
        ensures { result.now ≡ named_alg self.now }
    {
        match self {
            HardBinding::Data(fields) => &fields.alg,
            HardBinding::Bmff(fields, _) => &fields.alg,
        }
    }

    /// The digest.
    pub fn hash(&self) -> &[u8]
        ensures { result.now ≡ named_hash self.now }
    {
        match self {
            HardBinding::Data(fields) => fields.hash.as_slice(),
            HardBinding::Bmff(fields, _) => fields.hash.as_slice(),
        }
    }

    /// What is said where the digest is another.
    pub fn mismatch(&self) -> Code
        ensures { result ≡ code_of self.now }
    {
        match self {
            HardBinding::Data(_) => Code::AssertionDataHashMismatch,
            HardBinding::Bmff(_, _) => Code::AssertionBmffHashMismatch,
        }
    }

    /// What a binding with these fields covers of the file. `BadRange` comes exactly where the ranges of a data hash aren't in order in it.
    pub fn cover<S: Source>(&self, alloc: Global, source: &mut S) -> Result<Cover, CoverError>
        requires { HasBoxesInside (S.len source.old) self.now }
        ensures cover { ForSome (S.known source.old) (λ file.
            (b : Binding) → IsBindingFields file self.now b
            → MatchResult result (CoversAs file b) (HasNoCover b)) }
        ensures size { IfOk result (λ c. c.size ≡ S.len source.old) }
        ensures reads { ReadsSource S.len S.known S.faults IsCoverCause
            source.old source.new result }
    {
        match self {
            HardBinding::Data(fields) => match source.size() {
                Ok(size) => data_cover(alloc, fields.exclusions.as_slice(), size),
                Err(Failed) => Err(CoverError::ReadFault),
            },
            HardBinding::Bmff(fields, roots) => {
                bmff_cover(alloc, source, roots, bmff_exclusions(fields))
            }
        }
    }
}
