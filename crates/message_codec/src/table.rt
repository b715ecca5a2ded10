//! Which classes of objects a message of each kind may have.
ghost use Rattle.std.specs.Prelude.{◌≡◌};
ghost use Rattle.message_codec.specs.Table.{role_of, is_anywhere, is_unread};

use crate::role::Role;
use rsvp_messages::Kind;
use rsvp_objects::Class;

/// What the table says of a class in messages of a kind (RFC 2205, 3.1.3 to 3.1.9).
#[tactic(auto, unfolding(crate::specs::Table::role_of))]
#[inline(always)]
pub fn role(kind: Kind, class: Class) -> Role
    ensures { result ≡ role_of kind class.0 }
{
    match kind {
        Kind::Path => match class {
            Class::SESSION | Class::RSVP_HOP | Class::TIME_VALUES => Role::Needed,
            Class::SENDER_TEMPLATE | Class::SENDER_TSPEC | Class::ADSPEC => Role::Once,
            Class::POLICY_DATA => Role::Unread,
            _ => Role::Nowhere,
        },
        Kind::Resv => match class {
            Class::SESSION | Class::RSVP_HOP | Class::TIME_VALUES | Class::STYLE => Role::Needed,
            Class::SCOPE | Class::RESV_CONFIRM => Role::Once,
            Class::POLICY_DATA => Role::Unread,
            _ => Role::Nowhere,
        },
        Kind::PathErr => match class {
            Class::SESSION | Class::ERROR_SPEC => Role::Needed,
            Class::SENDER_TEMPLATE => Role::Once,
            Class::SENDER_TSPEC | Class::ADSPEC | Class::POLICY_DATA => Role::Unread,
            _ => Role::Nowhere,
        },
        Kind::ResvErr => match class {
            Class::SESSION | Class::RSVP_HOP | Class::ERROR_SPEC | Class::STYLE => Role::Needed,
            Class::SCOPE => Role::Once,
            Class::POLICY_DATA => Role::Unread,
            _ => Role::Nowhere,
        },
        Kind::PathTear => match class {
            Class::SESSION | Class::RSVP_HOP => Role::Needed,
            Class::SENDER_TEMPLATE => Role::Once,
            Class::SENDER_TSPEC | Class::ADSPEC | Class::POLICY_DATA => Role::Unread,
            _ => Role::Nowhere,
        },
        Kind::ResvTear => match class {
            Class::SESSION | Class::RSVP_HOP | Class::STYLE => Role::Needed,
            Class::SCOPE => Role::Once,
            Class::POLICY_DATA => Role::Unread,
            _ => Role::Nowhere,
        },
        Kind::ResvConf => match class {
            Class::SESSION | Class::ERROR_SPEC | Class::STYLE | Class::RESV_CONFIRM => Role::Needed,
            Class::POLICY_DATA => Role::Unread,
            _ => Role::Nowhere,
        },
    }
}

/// Whether objects of a class may stand anywhere.
#[inline(always)]
pub fn is_anywhere(class: Class) -> bool
    ensures { result ≡ is_anywhere class.0 }
{
    class == Class::NULL || class.has_high_bit()
}

/// Whether messages of a kind skip objects of a class, of this role there, whatever their contents are.
#[inline(always)]
pub fn is_unread(role: Role, kind: Kind, class: Class) -> bool
    requires role { role ≡ role_of kind class.0 }
    ensures { result ≡ is_unread kind class.0 }
{
    (kind == Kind::ResvTear && class == Class::FLOWSPEC) || matches!(role, Role::Unread)
}
