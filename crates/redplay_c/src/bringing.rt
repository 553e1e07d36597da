//! Files that arrive while a session plays: content, and the files of late scenes.
ghost use Rattle.std.specs.Prelude.{◌≡◌, IfOk, IsErrOf, OnOk, true, false};
ghost use Rattle.mh_base.specs.Path.{is_path};
ghost use Rattle.mh_codec.specs.Tags.{profile};
ghost use Rattle.mh_told.specs.Reading.{group_in};
ghost use Rattle.redplay_c.specs.Calls.{IsArrived, IsBrought, IsSent, IsStarved};
ghost use Rattle.std.specs.Prelude.{◌⊎◌};

use crate::answer::{NO_MEMORY, name_number, reading_number};
use crate::reading::read_group;
use crate::session::Session;
use mh_base::{GroupName, NameError, Octets};
use mh_model::{File, Input};
use std::alloc::Global;

impl Session {
    /// Posts a content file, and answers 0 or why it is refused.
    #[tactic(auto, using(crate::proofs::BringLemmas::arrived_so, crate::proofs::BringLemmas::unarrived_so))]
    pub fn arrive(&mut self, name: &[u8], content: &[u8]) -> u32
        ensures { IsArrived name.now content.now self.old self.new result }
    {
        match file_of(self.alloc, name, content) {
            Ok(file) => self.post(Input::Arrive(file)),
            Err(why) => name_number(why),
        }
    }

    /// Posts the file of a scene that was late, and answers 0 or why it is refused.
    #[tactic(auto, using(crate::proofs::BringLemmas::brought_so, crate::proofs::BringLemmas::unbrought_so))]
    pub fn bring(&mut self, name: &[u8], content: &[u8]) -> u32
        ensures { IsBrought name.now content.now self.old self.new result }
    {
        match GroupName::of_path(self.alloc, name) {
            Ok(name) => self.send(name, content),
            Err(why) => name_number(why),
        }
    }

    #[tactic(auto, using(crate::proofs::BringLemmas::sent_so, crate::proofs::BringLemmas::unsent_so))]
    fn send(&mut self, name: GroupName, content: &[u8]) -> u32
        ensures { IsSent name (group_in profile name content.now) self.old self.new result ⊎ IsStarved self.old self.new result }
    {
        match read_group(self.alloc, &name, content) {
            Ok(group) => self.post(Input::Scene(name, group)),
            Err(why) => reading_number(&why).unwrap_or(NO_MEMORY),
        }
    }
}

fn file_of(alloc: Global, name: &[u8], content: &[u8]) -> Result<File, NameError>
    ensures same { IfOk result (λ file. file ≡ record { name = name.now; content = content.now }) }
    ensures good { OnOk result (is_path name.now ≡ true) }
    ensures bad { IsErrOf result NameError.BadName → is_path name.now ≡ false }
{
    let name = GroupName::of_path(alloc, name)?;
    let content = Octets::from_slice(alloc, content)?;
    Ok(File { name, content })
}
