// A hall's plan.
ghost use Rattle.std.specs.Prelude.{◌≡◌};
ghost use Rattle.plan.specs.Plan.{planning};
ghost use Rattle.pasa.specs.Plans.{pasa_plan};

use pasa::plans::PasaPlan;

// Reads a plan: lists the addresses of its hall at the front of the lent words.
#[unsafe(no_mangle)]
pub extern "C" fn pasa_plan_read(text: &[u8], words: &mut [u64]) -> PasaPlan
    ensures { (result ≡ pasa_plan (planning text.now words.old).answer) × (words.new ≡ (planning text.now words.old).words) }
{
    pasa::plans::pasa_plan_read(text, words)
}
