//! Laws: where nothing is against an order, there is a message to be signed for it.
ghost use Rattle.outcomes.specs.Attributes.{AttributeCertificatesHaveMessages};
ghost use Rattle.outcomes.specs.Certificates.{CertificatesHaveMessages};
ghost use Rattle.outcomes.specs.Lists.{ListsHaveMessages};
ghost use Rattle.outcomes.specs.Outcomes.{EachJobHasOneMessage, EachSignatureHasOneResult};
ghost use Rattle.outcomes.specs.Requests.{RequestsHaveMessages};
ghost use Rattle.outcomes.specs.Times.{EachInstantIsCivil};

use rcgen_tbs::{assembled_as, assembled_is_issued, assembled_list, messages_are_elements};
use shelf_job::{der_once, message_once};

/// A law: each instant of the years 0 to 9999 has a civil time in UTC.
pub fn each_instant_is_civil()
    ensures { EachInstantIsCivil }
{}

/// A law: a list against which there is nothing has a message to be signed, where what it asks for has
/// fewer than 2^60 octets.
pub fn lists_have_messages()
    ensures { ListsHaveMessages }
{}

/// A law: a request against which there is nothing has a message to be signed, where what it asks for
/// has fewer than 2^60 octets, and its alternative names are ASCII.
pub fn requests_have_messages()
    ensures { RequestsHaveMessages }
{}

/// A law: the same of attribute certificates, whose texts may be any.
pub fn attribute_certificates_have_messages()
    ensures { AttributeCertificatesHaveMessages }
{}

/// A law: the same of certificates, whose alternative names are ASCII.
pub fn certificates_have_messages()
    ensures { CertificatesHaveMessages }
{}

/// A law: a job against which there is nothing has exactly one message to be signed, where what it asks
/// for has fewer than 2^60 octets, and the subject's alternative names are ASCII.
pub fn each_job_has_one_message()
    ensures { EachJobHasOneMessage }
{
    message_once();
    lists_have_messages();
    requests_have_messages();
    attribute_certificates_have_messages();
    certificates_have_messages();
}

/// A law: over a message exactly one result is issued with each signature, where both have fewer than
/// 2^60 octets together; it is what `seal` writes, where the signature is taken.
pub fn each_signature_has_one_result()
    ensures { EachSignatureHasOneResult }
{
    der_once();
    assembled_is_issued();
    assembled_as();
    assembled_list();
    messages_are_elements();
}
