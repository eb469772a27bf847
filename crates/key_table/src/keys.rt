ghost use Rattle.std.specs.Prelude.{◌≡◌, ◌⊎◌, None, IsSome, OnOk, OnErr};
ghost use Rattle.std.specs.FinMap as map;
ghost use Rattle.key_table.specs.Parts.{no_keys, with_name, without_name, with_holder, without_key};

use crate::key_map::KeyMap;
use claim_types::{Bucket, ClaimKey, Copied, Holding, LeaseId, NoMemory};
use std::alloc::Global;
use std::marker::Model;

/// What is known of a key: who holds it, and which open lease names it.
#[derive(Clone, Copy)]
pub struct KeyState {
    pub holder: Option<Holding>,
    pub named: Option<LeaseId>,
}

/// Who holds each key, and which open lease names it. Contracts see it as these two maps.
#[derive(Drop)]
pub struct Keys {
    // For the keys that are copied.
    alloc: Global,
    states: KeyMap<KeyState>,
}

impl Model for Keys {
    ghost use Rattle.key_table.specs.Parts.{KeyParts, parts_code, parts_of};

    ghost Value = { KeyParts };

    ghost coded = { parts_code };

    ghost view = { λ k. parts_of k.states };
}

impl Keys {
    /// Nobody holds a key, and no lease names one. It takes no memory.
    pub fn new(alloc: Global) -> Self
        ensures { result ≡ no_keys }
    {
        Keys {
            alloc,
            states: KeyMap::new(alloc),
        }
    }

    /// What is known of the key of this bucket and value. No key is built for it.
    pub fn state(&self, bucket: Bucket, value: &[u8]) -> KeyState
        ensures holder { result.holder ≡ map.get self.now.holder (record { bucket = bucket; value = value.now }) }
        ensures named { result.named ≡ map.get self.now.named (record { bucket = bucket; value = value.now }) }
    {
        match self.states.get(bucket, value) {
            Some(state) => state,
            None => KeyState {
                holder: None,
                named: None,
            },
        }
    }

    /// Notes that a lease names a key. After want of memory all is as it was.
    pub fn name(&mut self, key: &ClaimKey, lease: LeaseId) -> Result<(), NoMemory>
        ensures ok { OnOk result (self.new ≡ with_name self.old key.now lease) }
        ensures err { OnErr result (self.new ≡ self.old) }
    {
        match self.states.get(key.bucket, key.value.as_slice()) {
            Some(KeyState { holder, .. }) => {
                let state = KeyState {
                    holder,
                    named: Some(lease),
                };
                self.states.change(key.bucket, key.value.as_slice(), state);
                Ok(())
            }
            None => {
                let state = KeyState {
                    holder: None,
                    named: Some(lease),
                };
                self.states.put(key.copy(self.alloc)?, state)
            }
        }
    }

    /// Notes that no lease names a key, which takes no memory.
    pub fn unname(&mut self, key: &ClaimKey)
        ensures { self.new ≡ without_name self.old key.now }
    {
        match self.state(key.bucket, key.value.as_slice()).holder {
            Some(holding) => {
                let state = KeyState {
                    holder: Some(holding),
                    named: None,
                };
                self.states.change(key.bucket, key.value.as_slice(), state)
            }
            None => self.states.remove(key.bucket, key.value.as_slice()),
        }
    }

    /// Gives a key that is named or held to a holder, which takes no memory. No lease names it then.
    pub fn claim(&mut self, key: &ClaimKey, holding: Holding)
        requires { IsSome (map.get self.old.named key.now) ⊎ IsSome (map.get self.old.holder key.now) }
        ensures { self.new ≡ with_holder self.old key.now holding }
    {
        let state = KeyState {
            holder: Some(holding),
            named: None,
        };
        self.states.change(key.bucket, key.value.as_slice(), state);
    }

    /// Takes a key away, which takes no memory. Nobody holds it then, and no lease names it.
    pub fn release(&mut self, key: &ClaimKey)
        ensures { self.new ≡ without_key self.old key.now }
    {
        self.states.remove(key.bucket, key.value.as_slice());
    }

    /// Gives a key to a holder. No lease names it then. After want of memory all is as it was.
    pub fn hold(&mut self, key: ClaimKey, holding: Holding) -> Result<(), NoMemory>
        ensures ok { OnOk result (self.new ≡ with_holder self.old key holding) }
        ensures err { OnErr result (self.new ≡ self.old) }
    {
        let state = KeyState {
            holder: Some(holding),
            named: None,
        };
        self.states.put(key, state)
    }
}
