//! Laws: what is to be signed for an order, and what is issued, are one string of octets each.
ghost use Rattle.shelf_job.specs.Once.{HasOneDer, HasOneMessage};

use attr_issue::attribute_issued_once;
use rcgen_issue::{FixedKey, request_info_once, requested_once};
use rcgen_tbs::{
    certificate_as_once, list_over_once, one_list_message, one_message, one_message_as,
};

/// A law: for what an order comes to, there is at most one message to be signed.
pub fn message_once()
    ensures { HasOneMessage }
{
    one_message();
    one_message_as();
    one_list_message();
    request_info_once();
}

/// A law: the DER of what is issued with one signature is the same octets each time.
pub fn der_once()
    ensures { HasOneDer }
{
    certificate_as_once::<FixedKey>();
    list_over_once::<FixedKey>();
    request_info_once();
    requested_once::<FixedKey>();
    attribute_issued_once::<FixedKey>();
}
