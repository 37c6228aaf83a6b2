//! A certificate.

ghost use Rattle.std.specs.Prelude.{◌≡◌, ◌<◌, length};
ghost use Rattle.cert_text.specs.Certificates.{lane_rows};
ghost use Rattle.deb_text.specs.Lists.{lists};

use bit_rows::Row;
use std::marker::Model;

/// The certificate of a plan. A contract sees the words of the rows, and the order.
#[derive(Drop)]
pub struct Certificate {
    rows: Vec<Vec<Row>>,
    order: Vec<u32>,
}

impl Model for Certificate {
    ghost use Rattle.cert_text.specs.Certificates as spec;
    ghost use Rattle.deb_text.specs.Lists.{lists};

    ghost Value = { spec.Certificate };

    ghost view = { λ certificate. record {
      rows = lists certificate.rows.items;
      order = certificate.order.items;
    } };
}

impl Certificate {
    /// Makes a certificate of the rows of each lane, one behind each wait, publish and
    /// `when` without the initial archive, and the order of lanes.
    pub fn new(rows: Vec<Vec<Row>>, order: Vec<u32>) -> Certificate
        ensures { result ≡ record { rows = lists rows.items; order = order.items } }
    {
        Certificate { rows, order }
    }

    /// How many lanes have rows.
    pub fn lanes(&self) -> usize
        ensures { result ≡ length self.now.rows }
    {
        self.rows.len()
    }

    /// The rows of a lane: what it knows behind each wait and publish, and in the first branch
    /// of each `when`, in order, without the initial archive.
    pub fn lane_rows(&self, lane: usize) -> &[Row]
        requires { lane < length self.now.rows }
        ensures { result.now ≡ lane_rows self.now lane }
    {
        &self.rows[lane]
    }

    /// The lanes in the order in which their waits pass and their outputs appear, the first lane
    /// being 0.
    pub fn order(&self) -> &[u32]
        ensures { result.now ≡ self.now.order }
    {
        &self.order
    }
}
