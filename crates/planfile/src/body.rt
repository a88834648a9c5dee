// The runs of a file that is as long as they ask: all their ends, then all their weights.
ghost use Rattle.std.specs.Prelude.{◌≡◌, ◌<◌, ◌≤◌, true, length, is_ok};
ghost use Rattle.plan.specs.declared.TheConstants.{MOST_RUNS};
ghost use Rattle.planfile.specs.File.{size, weight_at, run_at, runs_from, done, filled};

use crate::kinds::{Kind, WeightFault};
use crate::numbers::bytes_at;
use fault::FileFault;
use plan::Run;

#[derive(Clone, Copy)]
pub(crate) struct Body<'a> {
    pub(crate) bytes: &'a [u8],
    pub(crate) runs: usize,
    ghost few: { runs ≤ MOST_RUNS },
    ghost whole: { length bytes.now ≡ size runs },
}

impl<'a> Body<'a> {
    // The first run whose weight is refused. A for: `?` ends it, which `try_for_each` says at more length, and a refusal holds the number
    // of its run, which a chain over chunks of the bytes would have to count beside them.
    #[tactic(auto, using(crate::proofs::Turns::done_more, crate::proofs::Turns::done_here))]
    pub(crate) fn check_weights<K: Kind>(&self) -> Result<(), FileFault>
        ensures { result ≡ done (runs_from K.Kind.weighed self.now.bytes.now self.now.runs self.now.runs 0) }
    {
        for k in 0..self.runs {
            self.run_at::<K>(k)?;
        }
        Ok(())
    }

    // Writes the runs into the first places.
    #[tactic(auto, using(std::proofs::lemmas::Grind::common_steps, crate::proofs::Turns::fill_good, crate::proofs::Turns::fill_rest, crate::proofs::Turns::fill_more, crate::proofs::Turns::fill_all))]
    pub(crate) fn fill<K: Kind>(&self, table: &mut [Run<K::Weight>])
        requires room { self.now.runs ≤ length table.old }
        requires good { is_ok (runs_from K.Kind.weighed self.now.bytes.now self.now.runs self.now.runs 0) ≡ true }
        ensures { table.new ≡ filled (runs_from K.Kind.weighed self.now.bytes.now self.now.runs self.now.runs 0) table.old }
    {
        for (k, place) in table[..self.runs].iter_mut().enumerate() {
            *place = self.run_at::<K>(k).unwrap();
        }
    }

    // Run k, or the refusal of its weight.
    fn run_at<K: Kind>(&self, k: usize) -> Result<Run<K::Weight>, FileFault>
        requires { k < self.now.runs }
        ensures { result ≡ run_at K.Kind.weighed self.now.bytes.now self.now.runs k }
    {
        let at = 6 + 4 * k;
        let tail = u16::from_le_bytes(bytes_at(self.bytes, at));
        let head = u16::from_le_bytes(bytes_at(self.bytes, at + 2));
        let weight = self.weight_at::<K>(k).map_err(|fault| fault.at(k))?;
        Ok(Run { tail, head, weight })
    }

    // The weight of run k: the weights of all runs stand after the ends of all runs.
    fn weight_at<K: Kind>(&self, k: usize) -> Result<K::Weight, WeightFault>
        requires { k < self.now.runs }
        ensures { result ≡ weight_at K.Kind.weighed self.now.bytes.now self.now.runs k }
    {
        let at = 6 + 4 * self.runs + 12 * k;
        let a = u32::from_le_bytes(bytes_at(self.bytes, at));
        let b = u32::from_le_bytes(bytes_at(self.bytes, at + 4));
        let c = u32::from_le_bytes(bytes_at(self.bytes, at + 8));
        K::weigh(a, b, c)
    }
}
