//! `WrittenName`: a name as a group writes it.
ghost use Rattle.std.specs.Prelude.{◌≡◌, ◌↔◌, true, false, IsSome, IfSome, IsNone, nat_eq};
ghost use Rattle.std.specs.List.{list_all};
ghost use Rattle.std.specs.Cmp.Lexicographic.{pointwise, nat_list_eq_equiv};
ghost use Rattle.std.specs.Cmp.{partial_equiv_from_equiv};
ghost use Rattle.mh_base.specs.Path.{is_name_byte};

use mh_base::group_name;
use std::marker::Model;

/// The name of a group or of a content file as it stands between quotation marks. Whether it leads
/// to a path is seen when the service is made. A contract sees its bytes.
#[derive(Drop)]
pub struct WrittenName {
    bytes: Vec<u8>,
}

impl Model for WrittenName {
    ghost use Rattle.std.specs.Prelude.{ℕ, List, ◌≡◌, true};
    ghost use Rattle.std.specs.List.{list_all};
    ghost use Rattle.mh_base.specs.Path.{is_name_byte};

    ghost Value = { List ℕ };

    ghost view = { λ n. n.bytes.items };

    ghost invariant = { λ n. list_all is_name_byte n.bytes.items ≡ true };
}

impl WrittenName {
    /// The name with these bytes, or none where a name may not have one of them.
    pub fn new(bytes: Vec<u8>) -> Option<WrittenName>
        ensures good { IsSome result ↔ (list_all is_name_byte bytes.items ≡ true) }
        ensures same { IfSome result (λ name. name ≡ bytes.items) }
    {
        if has_name_bytes(bytes.as_slice()) {
            Some(WrittenName { bytes })
        } else {
            None
        }
    }

    pub fn as_bytes(&self) -> &[u8]
        ensures same { result.now ≡ self.now }
        ensures good { list_all is_name_byte self.now ≡ true }
    {
        self.bytes.as_slice()
    }
}

fn has_name_bytes(bytes: &[u8]) -> bool
    ensures { result ≡ list_all is_name_byte bytes.now }
{
    bytes.iter().all(|b| group_name::is_name_byte(*b))
}

impl PartialEq for WrittenName {
    ghost eq = { pointwise nat_eq };

    ghost laws = { partial_equiv_from_equiv nat_list_eq_equiv };

    fn eq(&self, other: &WrittenName) -> bool {
        self.as_bytes() == other.as_bytes()
    }
}

impl Eq for WrittenName {
    ghost laws = { nat_list_eq_equiv };
}
