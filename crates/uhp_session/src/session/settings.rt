//! The options of a session: showing one and setting one.
ghost use Rattle.std.specs.Prelude.{◌≡◌, IfOk};
ghost use Rattle.uhp_session.specs.Answers.{Gave, IsSetting, get, option_of, reply_of, set};
ghost use Rattle.uhp_session.specs.Answers.{text_of, with_setting};

use super::Session;
use crate::lines::Reply;
use crate::options::{Setting, SettingFault, refuse_setting, setting_of, tell_setting};
use hive_model::Game;
use std::alloc::{AllocError, Global};

impl<G: Game + Send + Drop> Session<G> {
    /// The option with this name and its current value.
    fn option_of(&self, name: &[u8]) -> Result<Setting, SettingFault>
        ensures { result ≡ option_of self.now name.now }
    {
        if name == b"Table".as_slice() {
            Ok(Setting::Table(self.table))
        } else if name == b"Workers".as_slice() {
            Ok(Setting::Workers(self.workers))
        } else if name == b"Repetition".as_slice() {
            Ok(Setting::Repetition(self.repetition))
        } else {
            Err(SettingFault::NoSuchOption)
        }
    }

    /// The line of the option with this name.
    pub(super) fn tell_option(&self, alloc: Global, name: &[u8]) -> Result<Reply, AllocError>
        ensures { IfOk result (λ r. text_of r ≡ reply_of (get self.now name.now)) }
    {
        match self.option_of(name) {
            Ok(setting) => tell_setting(alloc, setting),
            Err(fault) => refuse_setting(alloc, fault),
        }
    }

    /// Sets the option to this value. Searchers are kept only for the values that they were made
    /// for.
    fn keep(&mut self, setting: Setting)
        requires { IsSetting setting }
        ensures { self.new ≡ with_setting self.old setting }
    {
        match setting {
            Setting::Table(entries) => {
                self.table = entries;
                self.searcher = None;
                self.team = None;
            }
            Setting::Workers(workers) => {
                self.workers = workers;
                self.searcher = None;
                self.team = None;
            }
            Setting::Repetition(on) => self.repetition = on,
        }
    }

    /// Gives the option with this name this value.
    pub(super) fn set_option(
        &mut self,
        alloc: Global,
        name: &[u8],
        value: &[u8],
    ) -> Result<Reply, AllocError>
        ensures { Gave (set self.old name.now value.now) result self.old self.new }
    {
        match setting_of(name, value) {
            Ok(setting) => {
                let reply = tell_setting(alloc, setting)?;
                self.keep(setting);
                Ok(reply)
            }
            Err(fault) => refuse_setting(alloc, fault),
        }
    }
}
