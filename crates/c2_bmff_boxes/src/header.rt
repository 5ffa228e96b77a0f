// Headers of boxes.
ghost use Rattle.std.specs.Prelude.{◌≡◌, ◌+◌, ◌<◌, ◌≤◌, length, take, drop, min, Some, IfOk, IfErr};
ghost use Rattle.std.specs.Int.{w32, w64, from_be_bytes};
ghost use Rattle.c2_bmff_boxes.specs.Headers.{head_fault, header_fault, IsBoxHead, IsHeader};
ghost use Rattle.c2_bmff_boxes.specs.Headers.{lacks_user_type};

// The type of a box that begins with a user type of 16 bytes.
pub(crate) const UUID: [u8; 4] = *b"uuid";

/// What the header of a box states (ISO/IEC 14496-12, 4.2).
#[derive(Clone, Copy, Debug, PartialEq, Eq)]
pub struct BoxHead {
    /// The header's length in bytes: 16 with a 64-bit size, else 8.
    pub header: u64,
    /// The box's length in bytes, with its header.
    pub length: u64,
    /// The box's type.
    pub kind: [u8; 4],
    /// The box states no size and runs to the end of the file.
    pub to_end: bool,
}

/// Why there is no header of a box.
#[derive(Clone, Copy, Debug, PartialEq, Eq)]
pub enum HeadError {
    /// The bytes end before the header does, or the file before the box.
    Short,

    /// The size is below its header's length.
    Bad,
}

// The number in the four bytes from `at` on.
pub(crate) fn u32_at(bytes: &[u8], at: usize) -> u32
    requires { at + 4 ≤ length bytes.now }
    ensures { result ≡ from_be_bytes w32 (take 4 (drop at bytes.now)) }
{
    u32::from_be_bytes([bytes[at], bytes[at + 1], bytes[at + 2], bytes[at + 3]])
}

// The number in the eight bytes from `at` on.
pub(crate) fn u64_at(bytes: &[u8], at: usize) -> u64
    requires { at + 8 ≤ length bytes.now }
    ensures { result ≡ from_be_bytes w64 (take 8 (drop at bytes.now)) }
{
    u64::from_be_bytes([
        bytes[at],
        bytes[at + 1],
        bytes[at + 2],
        bytes[at + 3],
        bytes[at + 4],
        bytes[at + 5],
        bytes[at + 6],
        bytes[at + 7],
    ])
}

// The box type after the size.
fn kind_in(bytes: &[u8]) -> [u8; 4]
    requires { 8 ≤ length bytes.now }
    ensures { result ≡ take 4 (drop 4 bytes.now) }
{
    [bytes[4], bytes[5], bytes[6], bytes[7]]
}

/// The header of the box at the front of `bytes`, from which on the file has `left` bytes: so many are in a box that says 0 for its
/// size.
///
/// [`HeadError::Short`]: `bytes` or `left` are fewer than the header needs, or the box ends after `left`. [`HeadError::Bad`]: the size
/// is from 2 to 7, or a 64-bit one below 16. The first that holds in this order: the header's bytes, the size, the box's end. Takes
/// no memory.
#[tactic(auto, unfolding(crate::specs::Headers::head_fault))]
pub fn head(bytes: &[u8], left: u64) -> Result<BoxHead, HeadError>
    ensures ok { IfOk result (IsBoxHead left bytes.now) }
    ensures err { IfErr result (λ e. head_fault left bytes.now ≡ Some e) }
{
    if left < 8 || bytes.len() < 8 {
        return Err(HeadError::Short);
    }
    let size = u32_at(bytes, 0);
    let kind = kind_in(bytes);
    if size == 1 {
        if left < 16 || bytes.len() < 16 {
            return Err(HeadError::Short);
        }
        let length = u64_at(bytes, 8);
        if length < 16 {
            return Err(HeadError::Bad);
        }
        if left < length {
            return Err(HeadError::Short);
        }
        return Ok(BoxHead {
            header: 16,
            length,
            kind,
            to_end: false,
        });
    }
    if size >= 2 && size < 8 {
        return Err(HeadError::Bad);
    }
    let length = if size == 0 { left } else { size as u64 };
    if left < length {
        return Err(HeadError::Short);
    }
    Ok(BoxHead {
        header: 8,
        length,
        kind,
        to_end: size == 0,
    })
}

// Whether it is a `uuid` box without room for its user type after its header.
fn lacks_user_type(head: BoxHead) -> bool
    requires { head.header ≤ head.length }
    ensures { result ≡ lacks_user_type head }
{
    head.kind == UUID && head.length - head.header < 16
}

// The header of the box at the front of a file's last `left` bytes, by the first 16 of them; a `uuid` box also has room for its user type.
pub(crate) fn box_head(bytes: &[u8], left: u64) -> Result<BoxHead, HeadError>
    requires first { length bytes.now ≡ min 16 left }
    ensures ok { IfOk result (IsHeader left bytes.now) }
    ensures err { IfErr result (λ e. header_fault left bytes.now ≡ Some e) }
{
    match head(bytes, left) {
        Ok(head) => {
            if lacks_user_type(head) {
                return Err(HeadError::Bad);
            }
            Ok(head)
        }
        Err(error) => Err(error),
    }
}
