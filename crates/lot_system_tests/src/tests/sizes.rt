mod histories;
mod inputs;
mod sizes;
