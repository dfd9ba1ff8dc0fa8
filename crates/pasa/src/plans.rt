// A hall's plan.
ghost use Rattle.std.specs.Prelude.{◌≡◌};
ghost use Rattle.plan.specs.Plan.{planned_answer, planning};
ghost use Rattle.pasa.specs.Plans.{pasa_plan};

use super::number;
use plan::PlanRefusal;
use refusal::Refusal;

// What reading a plan answers: the nodes of its hall, 0 in a refusal; the place of the fault, 0 but with refusal 13; and the refusal's number, 0
// where the hall is listed.
#[repr(C)]
#[derive(Clone, Copy, Debug, PartialEq, Eq)]
pub struct PasaPlan {
    pub nodes: usize,
    pub place: usize,
    pub refusal: u8,
}

impl From<Result<usize, PlanRefusal>> for PasaPlan {
    ghost from_gives = { λ nodes result. result ≡ pasa_plan (planned_answer nodes) };

    #[tactic(auto, unfolding(crate::specs::Plans::pasa_plan))]
    fn from(nodes: Result<usize, PlanRefusal>) -> PasaPlan {
        let place = match nodes {
            Err(PlanRefusal::Grammar { place }) => place,
            _ => 0,
        };
        PasaPlan {
            nodes: nodes.unwrap_or(0),
            place,
            refusal: number(&nodes.map_err(Refusal::from)),
        }
    }
}

// Reads a plan: lists the addresses of its hall at the front of the lent words.
#[unsafe(no_mangle)]
pub extern "C" fn pasa_plan_read(text: &[u8], words: &mut [u64]) -> PasaPlan
    ensures { (result ≡ pasa_plan (planning text.now words.old).answer) × (words.new ≡ (planning text.now words.old).words) }
{
    PasaPlan::from(plan::read(text, words))
}
