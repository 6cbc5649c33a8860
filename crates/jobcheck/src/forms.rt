// Which commands of the job are in which form, so that a fault in a form is told at the line that it was saved from.
use jobgroups::command::{Command, StationCommand};
use jobvalues::numbers::two_digit_number;
use std::alloc::{AllocError, Global};

// A command of a form: its place there, and the place of the job's command that it was saved from.
#[derive(Clone, Copy)]
struct Saved {
    form: u8,
    place: usize,
    at: usize,
}

#[derive(Drop)]
pub(crate) struct Forms {
    // the form that is being saved, and how long its draft is
    saving: Option<u8>,
    long: usize,
    draft: Vec<Saved>,
    saved: Vec<Saved>,
}

impl Forms {
    pub(crate) fn new(alloc: Global) -> Forms {
        Forms {
            saving: None,
            long: 0,
            draft: Vec::new(alloc),
            saved: Vec::new(alloc),
        }
    }

    pub(crate) fn saving(&self) -> Option<u8> {
        self.saving
    }

    // The place in the job of the command that a form's command was saved from.
    pub(crate) fn saved_from(&self, form: u8, place: usize) -> Option<usize> {
        let mut of_form = self.saved.iter().filter(|saved| saved.form == form);
        of_form
            .find(|saved| saved.place == place)
            .map(|saved| saved.at)
    }

    // A command was accepted, which is so many bytes long.
    pub(crate) fn accept(
        &mut self,
        command: &Command<'_>,
        at: usize,
        bytes: usize,
    ) -> Result<(), AllocError> {
        match command {
            Command::Label(_) => {
                if let Some(form) = self.saving {
                    self.draft.push(Saved {
                        form,
                        place: self.long,
                        at,
                    })?;
                    self.long = self.long.saturating_add(bytes);
                }
            }
            Command::Station(StationCommand::BeginSaving(form)) => {
                self.saving = Some(two_digit_number(form.form.bytes));
                self.long = 0;
                self.draft.clear();
            }
            Command::Station(StationCommand::EndSaving) => {
                let form = self.saving.unwrap_or(0);
                self.saved.retain(|saved| saved.form != form);
                for saved in self.draft.iter() {
                    self.saved.push(*saved)?;
                }
                self.saving = None;
            }
            Command::Station(StationCommand::EmptyStore) => self.saved.clear(),
            Command::Station(StationCommand::Reset) => self.saving = None,
            Command::Station(
                StationCommand::PrintIssue(_)
                | StationCommand::RecallForm(_)
                | StationCommand::WriteStatus,
            ) => {}
        }
        Ok(())
    }
}
