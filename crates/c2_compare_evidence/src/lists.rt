// A difference that was found.
ghost use Rattle.std.specs.Prelude.{◌≡◌, ◌∷◌, [], bytes_eq, None, Some};
ghost use Rattle.c2_compare_spec.specs.Evidence.{ListPair};
ghost use Rattle.c2_compare_evidence.specs.Differing.{IsFirstOf, binder_view, location_view};
ghost use Rattle.c2_compare_evidence.specs.Shown.{shown_by};

/// What binds two lists to one claim.
#[derive(Clone, Copy, Debug)]
pub enum Binder<'a> {
    /// The digest of both lists, by the algorithm with this name.
    Digest(&'a str),

    /// The signature in the box with these contents.
    Signature(&'a [u8]),
}

/// Where a list stands in the first file.
#[derive(Clone, Copy, Debug)]
pub enum Location<'a> {
    /// The assertion with the second label in the manifest with the first.
    Assertion(&'a str, &'a str),

    /// The signature of the manifest with this label.
    Signature(&'a str),

    /// The manifest with this label.
    Whole(&'a str),
}

/// Two different lists that correspond to each other, the left of the first file and the right of the second.
#[derive(Clone, Copy, Debug)]
pub struct Difference<'a> {
    pub bound_by: Binder<'a>,
    pub location: Location<'a>,
    pub left: &'a [u8],
    pub right: &'a [u8],
}

/// These two lists where they differ, which was found out before.
pub fn compare_known<'a>(
    equal: bool,
    bound_by: Binder<'a>,
    location: Location<'a>,
    left: &'a [u8],
    right: &'a [u8],
) -> Option<Difference<'a>>
    ensures { (p : ListPair) → shown_by p.bound_by ≡ binder_view bound_by.entry
        → p.location ≡ location_view location.entry → p.left ≡ left.now → p.right ≡ right.now
        → equal ≡ bytes_eq p.left p.right → IsFirstOf (p ∷ []) result }
{
    if equal {
        return None;
    }
    Some(Difference {
        bound_by,
        location,
        left,
        right,
    })
}

/// These two lists where they differ.
pub fn compare_lists<'a>(
    bound_by: Binder<'a>,
    location: Location<'a>,
    left: &'a [u8],
    right: &'a [u8],
) -> Option<Difference<'a>>
    ensures { (p : ListPair) → shown_by p.bound_by ≡ binder_view bound_by.entry
        → p.location ≡ location_view location.entry → p.left ≡ left.now → p.right ≡ right.now
        → IsFirstOf (p ∷ []) result }
{
    compare_known(left == right, bound_by, location, left, right)
}
