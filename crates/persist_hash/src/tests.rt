mod blank;
mod broken;
mod steps;
