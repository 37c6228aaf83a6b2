//! Laws of the faults of certificates.

ghost use Rattle.plan_cert.specs.Certified.{FaultsRefuse, FirstFaultIsOne};

/// A certificate that has a first fault does not certify. It does nothing.
pub fn faults_refuse()
    ensures { FaultsRefuse }
{}

/// Two first faults of one certificate are the same. It does nothing.
pub fn first_fault_is_one()
    ensures { FirstFaultIsOne }
{}
