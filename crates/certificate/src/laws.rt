//! Laws on what is concluded. The functions do nothing.
ghost use Rattle.certificate.specs.Laws.{AcceptedCertificatesAreTrue, ConclusionsAreTheTruth};

/// Where each node of a formula's plan gave its slice, the initial cut is closed under the system
/// of one of the disjuncts exactly where the formula is true there. So what is concluded is the
/// truth, whoever made the certificate.
pub fn a_conclusion_is_the_truth()
    ensures { ConclusionsAreTheTruth }
{}

/// So where the text of a certificate is accepted, its verdict is the truth of the formula at the
/// initial cut.
pub fn an_accepted_certificate_tells_the_truth()
    ensures { AcceptedCertificatesAreTrue }
{}
